use crate::Message;
use pm_base::{Change, GiveRow, List, Num, Parts, Query, Stamp, Value, Window};
use std::test::Fail;

fn at(time: u64) -> Stamp {
    Stamp { time, agent: 4 }
}

fn value() -> Value {
    Value { x: 1, y: -1 }
}

const NUM: Num = Num { agent: 4, seq: 9 };

#[test]
fn messages_of_a_step_have_its_moment(rt: HostRuntime) -> Result<(), Fail> {
    let query = Query::One { var: 0 };
    let rows = [
        (
            Message::Wake {
                num: NUM,
                stamp: at(1),
            },
            1,
        ),
        (
            Message::Ask {
                num: NUM,
                stamp: at(2),
                query,
            },
            2,
        ),
        (
            Message::Finish {
                num: NUM,
                stamp: at(6),
            },
            6,
        ),
    ];
    for (message, time) in &rows {
        assert_eq!(rt; message.stamp(), at(*time));
    }
    Ok(())
}

#[test]
fn rows_of_a_variable_have_their_stamps(rt: HostRuntime) -> Result<(), Fail> {
    let row = GiveRow {
        num: NUM,
        stamp: at(5),
        var: 0,
        turn: 1,
        hit: Some(value()),
    };
    let change = Change::Add(value());
    let rows = [
        (
            Message::Put {
                num: NUM,
                stamp: at(3),
                var: 0,
                change,
            },
            3,
        ),
        (
            Message::Cut {
                num: NUM,
                stamp: at(4),
                var: 0,
            },
            4,
        ),
        (Message::Give { row }, 5),
    ];
    for (message, time) in &rows {
        assert_eq!(rt; message.stamp(), at(*time));
    }
    Ok(())
}

#[test]
fn what_holds_from_a_moment_on_has_it(rt: HostRuntime) -> Result<(), Fail> {
    let alloc = rt.alloc();
    let grow = Message::Grow {
        class: 0,
        from: at(7),
        until: Some(at(8)),
        window: Window::whole(),
    };
    let parts = Parts {
        base: value(),
        puts: List::new(alloc),
        cuts: List::new(alloc),
        reads: List::new(alloc),
    };
    let moved = Message::Move {
        var: 0,
        floor: at(8),
        parts,
    };
    assert_eq!(rt; grow.stamp(), at(7));
    assert_eq!(rt; moved.stamp(), at(8));
    Ok(())
}
