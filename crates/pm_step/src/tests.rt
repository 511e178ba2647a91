ghost use Rattle.std.specs.Prelude.{IfOk};
ghost use Rattle.pm_base.specs.Layouts.{IsLayout};

use crate::arithmetic::compute;
use crate::steps::next;
use crate::{Act, Next};
use pm_base::{
    Boxed, Change, ClassRow, Expr, Field, Hit, Layout, List, Memory, Name, Op, Place, Program,
    Query, RegRow, Sense, SenseRow, Stamp, Stmt, Value, Write,
};
use std::alloc::Global;
use std::test::Fail;

#[test]
fn operators_at_the_ends(rt: HostRuntime) {
    let rows = [
        (Op::Add, i64::MAX, 1, i64::MAX),
        (Op::Add, i64::MIN, -1, i64::MIN),
        (Op::Sub, i64::MIN, 1, i64::MIN),
        (Op::Sub, 0, i64::MIN, i64::MAX),
        (Op::Mul, i64::MIN, i64::MAX, i64::MIN),
        (Op::Mul, i64::MIN, -1, i64::MAX),
        (Op::Div, i64::MIN, -1, i64::MAX),
        (Op::Div, i64::MAX, 0, 0),
        (Op::Div, -7, 2, -3),
        (Op::Rem, i64::MIN, -1, 0),
        (Op::Rem, i64::MIN, 0, 0),
        (Op::Rem, -7, 2, -1),
        (Op::Rem, 7, -2, 1),
        (Op::Min, i64::MIN, 0, i64::MIN),
        (Op::Max, i64::MIN, 0, 0),
        (Op::Less, i64::MIN, i64::MAX, 1),
        (Op::Less, 0, 0, 0),
        (Op::AtMost, 0, 0, 1),
        (Op::AtMost, i64::MAX, i64::MIN, 0),
        (Op::Equal, i64::MIN, i64::MIN, 1),
        (Op::Equal, i64::MIN, i64::MAX, 0),
        (Op::Differ, 0, 0, 0),
        (Op::Differ, -1, 1, 1),
    ];
    for (op, a, b, want) in rows {
        assert_eq!(rt; compute(op, a, b), want, "{a} and {b}");
    }
}

// Variable 0 is alone in class 0; class 1 has the variables 1 to 3.
fn layout(alloc: Global) -> Result<Layout, Memory>
    ensures { IfOk result (λ layout. IsLayout layout) }
{
    let mut classes = List::new(alloc);
    classes.push(ClassRow { first: 0, count: 1 })?;
    classes.push(ClassRow { first: 1, count: 3 })?;
    Ok(Layout { classes })
}

fn one<T: Drop>(alloc: Global, item: T) -> Result<List<T>, Memory> {
    let mut items = List::new(alloc);
    items.push(item)?;
    Ok(items)
}

// A rule with one register that reads variable 0, with that body.
fn rule(alloc: Global, body: List<Stmt>) -> Result<Program, Memory> {
    let reg = RegRow {
        name: Name::make(alloc, "n")?,
        start: 0,
    };
    let sense = SenseRow {
        name: Name::make(alloc, "a")?,
        sense: Sense::Read {
            place: Place::Var { var: 0 },
        },
    };
    Ok(Program {
        regs: one(alloc, reg)?,
        senses: one(alloc, sense)?,
        body,
    })
}

fn step(alloc: Global, body: List<Stmt>, answers: List<List<Hit>>) -> Result<Next, Memory> {
    let program = rule(alloc, body)?;
    let stamp = Stamp { time: 0, agent: 0 };
    next(
        alloc,
        &program,
        &layout(alloc)?,
        stamp,
        &one(alloc, 0)?,
        &answers,
    )
}

// What that body does once variable 0 is read as these hits.
fn act(alloc: Global, body: List<Stmt>, hits: List<Hit>) -> Result<Act, Fail> {
    match step(alloc, body, one(alloc, hits)?)? {
        Next::Act(act) => Ok(act),
        Next::Ask(_) => Err(Fail::new("it asks")),
    }
}

fn hit(var: u32, x: i64, y: i64) -> Hit {
    Hit {
        var,
        value: Value { x, y },
    }
}

#[test]
fn fields_of_an_answer(rt: HostRuntime) -> Result<(), Fail> {
    let alloc = rt.alloc();
    let rows = [
        (Field::N, 3, 0),
        (Field::I, 1, -1),
        (Field::X, i64::MAX, 0),
        (Field::Y, i64::MIN, 0),
        (Field::Sx, i64::MAX - 10, 0),
        (Field::Sy, i64::MIN + 3, 0),
    ];
    for (field, want, without) in rows {
        let mut hits = one(alloc, hit(2, i64::MAX, i64::MIN))?;
        hits.push(hit(3, 5, -1))?;
        hits.push(hit(3, -10, 3))?;
        for (hits, want) in [(hits, want), (List::new(alloc), without)] {
            let value = Expr::Part { sense: 0, field };
            let body = one(alloc, Stmt::Let { reg: 0, value })?;
            assert_eq!(rt; act(alloc, body, hits)?.regs.as_slice(), [want].as_slice());
        }
    }
    Ok(())
}

#[test]
fn waits(rt: HostRuntime) -> Result<(), Fail> {
    let alloc = rt.alloc();
    for (time, want) in [(0, 1), (i64::MIN, 1), (1, 1), (i64::MAX, i64::MAX as u64)] {
        assert_eq!(rt;
            act(alloc, wait(alloc, time)?, List::new(alloc))?.wait,
            want
        );
    }
    Ok(())
}

fn wait(alloc: Global, time: i64) -> Result<List<Stmt>, Memory> {
    let value = Expr::Num(time);
    one(alloc, Stmt::Wait { value })
}

#[test]
fn nested_ifs(rt: HostRuntime) -> Result<(), Fail> {
    let alloc = rt.alloc();
    for (outer, inner, want) in [(-1, 1, 2), (-1, 0, 1), (0, 1, 3), (0, 0, 4)] {
        let first = Stmt::If {
            test: Expr::Num(inner),
            first: wait(alloc, 2)?,
            second: List::new(alloc),
        };
        let second = Stmt::If {
            test: Expr::Num(inner),
            first: wait(alloc, 3)?,
            second: wait(alloc, 4)?,
        };
        let whole = Stmt::If {
            test: Expr::Num(outer),
            first: one(alloc, first)?,
            second: one(alloc, second)?,
        };
        let act = act(alloc, one(alloc, whole)?, List::new(alloc))?;
        assert_eq!(rt; act.wait, want, "{outer} and {inner}");
    }
    Ok(())
}

#[test]
fn the_last_change_stands(rt: HostRuntime) -> Result<(), Fail> {
    let alloc = rt.alloc();
    for add_is_last in [true, false] {
        let set = Stmt::Set {
            place: Place::Var { var: 2 },
            x: Expr::Num(1),
            y: Expr::Num(2),
        };
        // the members of class 1 are counted from variable 1, and -2 is 1 modulo 3
        let at = Expr::Num(-2);
        let add = Stmt::Add {
            place: Place::Member { class: 1, at },
            x: Expr::Num(3),
            y: Expr::Num(4),
        };
        let other = Stmt::Set {
            place: Place::Var { var: 0 },
            x: Expr::Num(5),
            y: Expr::Num(6),
        };
        let (early, late) = if add_is_last { (set, add) } else { (add, set) };
        let mut body = one(alloc, early)?;
        body.push(late)?;
        body.push(other)?;
        let act = act(alloc, body, List::new(alloc))?;
        let first = Write {
            var: 0,
            change: Change::Set(Value { x: 5, y: 6 }),
        };
        let change = if add_is_last {
            Change::Add(Value { x: 3, y: 4 })
        } else {
            Change::Set(Value { x: 1, y: 2 })
        };
        let second = Write { var: 2, change };
        assert_eq!(rt; act.writes.as_slice(), [first, second].as_slice());
    }
    Ok(())
}

// `if (a.x < 1)`, `set c0 = (n - 1), -2`, `end`.
fn count_down(alloc: Global) -> Result<List<Stmt>, Memory> {
    let x = Expr::Part {
        sense: 0,
        field: Field::X,
    };
    let test = Expr::Bin {
        op: Op::Less,
        left: Boxed::new(alloc, x)?,
        right: Boxed::new(alloc, Expr::Num(1))?,
    };
    let less = Expr::Bin {
        op: Op::Sub,
        left: Boxed::new(alloc, Expr::Reg(0))?,
        right: Boxed::new(alloc, Expr::Num(1))?,
    };
    let set = Stmt::Set {
        place: Place::Var { var: 0 },
        x: less,
        y: Expr::Num(-2),
    };
    let whole = Stmt::If {
        test,
        first: one(alloc, set)?,
        second: List::new(alloc),
    };
    one(alloc, whole)
}

#[test]
fn counts_down(rt: HostRuntime) -> Result<(), Fail> {
    let alloc = rt.alloc();
    match step(alloc, count_down(alloc)?, List::new(alloc))? {
        Next::Ask(query) => assert_eq!(rt; query, Query::One { var: 0 }),
        Next::Act(_) => return Err(Fail::new("it acts")),
    }
    let act = act(alloc, count_down(alloc)?, one(alloc, hit(0, 0, 0))?)?;
    let write = Write {
        var: 0,
        change: Change::Set(Value { x: -1, y: -2 }),
    };
    assert_eq!(rt; act.writes.as_slice(), [write].as_slice());
    assert_eq!(rt; act.regs.as_slice(), [0].as_slice());
    assert_eq!(rt; act.wait, 1);
    Ok(())
}
