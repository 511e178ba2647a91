use crate::{
    Boxed, Change, ClassRow, Expr, Interval, Layout, Line, List, Name, Op, Place, Program, RegRow,
    Sense, SenseRow, Stamp, Stmt, Value, Window, is_name, is_reserved,
};

fn at(time: u64, agent: u32) -> Stamp {
    Stamp { time, agent }
}

fn pair(x: i64, y: i64) -> Value {
    Value { x, y }
}

fn window(x0: i64, x1: i64, y0: i64, y1: i64) -> Window {
    Window { x0, x1, y0, y1 }
}

#[test]
fn values_are_told_from_those_outside(rt: HostRuntime) {
    let square = window(0, 5, 0, 5);
    let rows = [
        (square, pair(5, 0), true),
        (square, pair(0, 5), true),
        (square, pair(6, 0), false),
        (square, pair(0, -1), false),
        (window(1, 0, 0, 5), pair(1, 1), false),
        (Window::point(pair(2, 3)), pair(2, 3), true),
        (Window::point(pair(2, 3)), pair(3, 2), false),
        (Window::whole(), pair(i64::MAX, i64::MIN), true),
    ];
    for (w, v, inside) in rows {
        assert!(rt; v.inside(&w) == inside);
    }
}

#[test]
fn boxes_join_and_meet(rt: HostRuntime) {
    let rows = [
        (
            window(0, 0, 0, 0),
            window(5, 5, 0, 0),
            window(0, 5, 0, 0),
            false,
        ),
        (
            window(0, 5, 0, 5),
            window(5, 9, 5, 6),
            window(0, 9, 0, 6),
            true,
        ),
        (
            window(0, 5, 0, 5),
            window(1, 2, 6, 7),
            window(0, 5, 0, 7),
            false,
        ),
    ];
    for (a, b, joined, meet) in rows {
        if !a.is_inverted() && !b.is_inverted() {
            assert!(rt; a.join(&b) == joined);
        }
        assert!(rt; a.meets(&b) == meet);
    }
    assert!(rt; !window(3, 1, 0, 5).meets(&window(0, 5, 0, 5)));
}

#[test]
fn moments_stand_between_their_bounds(rt: HostRuntime) {
    let some = Interval {
        from: Some(at(3, 0)),
        until: Some(at(6, 0)),
    };
    let open = Interval {
        from: None,
        until: None,
    };
    for (when, s, holds) in [
        (some, at(3, 0), false),
        (some, at(3, 1), true),
        (some, at(6, 0), true),
        (some, at(6, 1), false),
        (open, at(0, 0), true),
    ] {
        assert!(rt; when.holds(s) == holds);
    }
    let line = Line::least([at(2, 1), at(2, 0), at(3, 0)].as_slice());
    assert!(rt; line == Line::At(at(2, 0)));
    assert!(rt; line.is_past(at(1, 7)) && !line.is_past(at(2, 0)));
    assert!(rt; Line::least([].as_slice()) == Line::End);
    assert!(rt; Line::At(at(9, 9)) < Line::End && at(1, 9) < at(2, 0));
}

#[test]
fn members_and_changes(rt: HostRuntime) {
    let row = ClassRow {
        first: 10,
        count: 3,
    };
    for (e, member) in [(0, 10), (5, 12), (-1, 12), (-3, 10), (i64::MIN, 11)] {
        assert!(rt; row.member(e) == member);
    }
    let last = i64::MAX;
    for (change, before, after) in [
        (Change::Set(pair(10, 0)), pair(3, 4), pair(10, 0)),
        (Change::Add(pair(3, -1)), pair(10, 0), pair(13, -1)),
        (
            Change::Add(pair(3, -1)),
            pair(last - 1, i64::MIN),
            pair(last, i64::MIN),
        ),
    ] {
        assert!(rt; change.apply(before) == after);
    }
}

#[test]
fn lists_and_names_take_memory(rt: HostRuntime) {
    let alloc = rt.alloc();
    let mut list = List::new(alloc);
    list.push(1u32).expect(&rt, "memory");
    list.push(3).expect(&rt, "memory");
    list.insert(1, 2).expect(&rt, "memory");
    list.set(2, 4);
    list.set(3, 5);
    assert!(rt; list.as_slice() == [1, 2, 4].as_slice());
    let name = Name::make(alloc, "ant").expect(&rt, "memory");
    let copy = name.copy(alloc).expect(&rt, "memory");
    assert!(rt; copy.as_str() == "ant" && is_name(copy.as_str()) && !is_reserved(copy.as_str()));
}

/// `reg n 0`, `read a = c0` and `set c0 = (n - 1), -2` for a plan with one class of one variable.
#[test]
fn a_rule_fits_its_plan(rt: HostRuntime) {
    let alloc = rt.alloc();
    let left = Boxed::new(alloc, Expr::Reg(0)).expect(&rt, "memory");
    let right = Boxed::new(alloc, Expr::Num(1)).expect(&rt, "memory");
    let set = Stmt::Set {
        place: Place::Var { var: 0 },
        x: Expr::Bin {
            op: Op::Sub,
            left,
            right,
        },
        y: Expr::Num(-2),
    };
    let mut rule = Program {
        regs: List::new(alloc),
        senses: List::new(alloc),
        body: List::new(alloc),
    };
    let reg = RegRow {
        name: Name::make(alloc, "n").expect(&rt, "memory"),
        start: 0,
    };
    let sense = SenseRow {
        name: Name::make(alloc, "a").expect(&rt, "memory"),
        sense: Sense::Read {
            place: Place::Var { var: 0 },
        },
    };
    rule.regs.push(reg).expect(&rt, "memory");
    rule.senses.push(sense).expect(&rt, "memory");
    rule.body.push(set).expect(&rt, "memory");
    let mut classes = List::new(alloc);
    let without = Layout {
        classes: List::new(alloc),
    };
    classes
        .push(ClassRow { first: 0, count: 1 })
        .expect(&rt, "memory");
    let layout = Layout { classes };
    let copy = rule.copy(alloc).expect(&rt, "memory");
    assert!(rt; layout.var_count() == 1 && layout.class_of(0) == 0 && layout.member(0, -7) == 0);
    assert!(rt; copy.fits(&layout) && !rule.fits(&without));
}
