ghost use Rattle.std.specs.Prelude.{IfOk};
ghost use Rattle.pm_base.specs.Layouts.{IsLayout};

use crate::{Alp, AlpParts};
use pm_base::{
    ClassRow, Expr, Field, GiveRow, Layout, Line, List, Memory, Name, Num, Place, Program, RegRow,
    Sense, SenseRow, Stamp, Stmt, Value,
};
use pm_message::Message;
use std::alloc::Global;
use std::test::Fail;

fn one<T: Drop>(alloc: Global, item: T) -> Result<List<T>, Memory> {
    let mut items = List::new(alloc);
    items.push(item)?;
    Ok(items)
}

// Variables 0 and 1, both in class 0.
fn layout(alloc: Global) -> Result<Layout, Memory>
    ensures { IfOk result (λ layout. IsLayout layout) }
{
    let mut classes = List::new(alloc);
    classes.push(ClassRow { first: 0, count: 2 })?;
    Ok(Layout { classes })
}

// A rule with one register, which reads variable 0 and sets variable 1 to what it saw.
fn rule(alloc: Global) -> Result<Program, Memory> {
    let reg = RegRow {
        name: Name::make(alloc, "n")?,
        start: 0,
    };
    let sense = SenseRow {
        name: Name::make(alloc, "a")?,
        sense: Sense::Read {
            place: Place::Var { var: 0 },
        },
    };
    let set = Stmt::Set {
        place: Place::Var { var: 1 },
        x: Expr::Part {
            sense: 0,
            field: Field::X,
        },
        y: Expr::Num(0),
    };
    Ok(Program {
        regs: one(alloc, reg)?,
        senses: one(alloc, sense)?,
        body: one(alloc, set)?,
    })
}

// The kind of a message, and the seq of its number.
fn told(message: Option<&Message>) -> Option<(u8, u64)> {
    match message {
        Some(Message::Wake { num, .. }) => Some((b'w', num.seq)),
        Some(Message::Ask { num, .. }) => Some((b'a', num.seq)),
        Some(Message::Put { num, .. }) => Some((b'p', num.seq)),
        Some(Message::Cut { num, .. }) => Some((b'c', num.seq)),
        _ => None,
    }
}

fn wake(seq: u64, time: u64) -> Message {
    Message::Wake {
        num: Num { agent: 1, seq },
        stamp: Stamp { time, agent: 1 },
    }
}

// A hit of variable 0 for the sense of this seq at time 0.
fn give(seq: u64, turn: u64, x: i64) -> Message {
    Message::Give {
        row: GiveRow {
            num: Num { agent: 1, seq },
            stamp: Stamp { time: 0, agent: 1 },
            var: 0,
            turn,
            hit: Some(Value { x, y: 0 }),
        },
    }
}

#[test]
fn a_step_is_taken_back_and_given_out(rt: HostRuntime) -> Result<(), Fail> {
    let alloc = rt.alloc();
    let layout = layout(alloc)?;
    let program = rule(alloc)?;
    let parts = AlpParts {
        agent: 1,
        start: 0,
        horizon: 9,
        program: &program,
        layout: &layout,
    };
    let (mut alp, first) = Alp::first(alloc, parts)?;
    assert_eq!(rt; told(first.as_ref()), Some((b'w', 0)));
    assert!(rt; alp.awaits(Num { agent: 1, seq: 0 }));
    let mut out = List::new(alloc);
    alp.deliver(alloc, wake(0, 0), &mut out)?;
    alp.deliver(alloc, give(1, 1, 4), &mut out)?;
    assert_eq!(rt; alp.ready(Line::End), 1);
    alp.deliver(alloc, give(1, 2, 5), &mut out)?;
    let wants = [
        (b'a', 1),
        (b'p', 2),
        (b'w', 3),
        (b'c', 2),
        (b'p', 4),
        (b'w', 5),
    ];
    assert_eq!(rt; out.len(), wants.len());
    for i in 0..wants.len() {
        assert_eq!(rt; told(out.get(i)), Some(wants[i]), "message {i}");
    }
    assert_eq!(rt; alp.made(), 3);
    assert_eq!(rt; alp.kept(), 1);
    assert!(rt; alp.commit(Line::End).is_some());
    assert!(rt; alp.commit(Line::End).is_none());
    Ok(())
}
