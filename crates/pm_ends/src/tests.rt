use crate::{Post, wires};
use pm_base::{Line, Num, Stamp};
use pm_message::Message;
use std::test::Fail;

fn at(time: u64) -> Stamp {
    Stamp { time, agent: 4 }
}

fn post(time: u64) -> Post {
    let num = Num { agent: 4, seq: 0 };
    let stamp = at(time);
    Post {
        message: Message::Wake { num, stamp },
        clock: time,
    }
}

#[test]
fn items_come_out_in_the_order_in_which_they_were_sent(rt: HostRuntime) -> Result<(), Fail> {
    let (mut inns, mut outs) = wires(rt.alloc(), &[(1, 0)], 2).expect(&rt, "memory");
    outs[0].send(1, post(5)).expect(&rt, "memory");
    outs[0].send(1, post(3)).expect(&rt, "memory");
    // no end goes there
    outs[0].send(7, post(1)).expect(&rt, "memory");
    let first = inns[1].take(0);
    let second = inns[1].take(0);
    let none = inns[1].take(0);
    assert!(rt; first.map(|x| x.clock) == Some(5) && second.map(|x| x.clock) == Some(3));
    assert!(rt; none.is_none() && inns[1].from(0) == Some(0) && inns[1].len() == 1);
    Ok(())
}

#[test]
fn the_least_moment_is_of_all_ends(rt: HostRuntime) -> Result<(), Fail> {
    let (mut inns, mut outs) = wires(rt.alloc(), &[(2, 0), (2, 1)], 3).expect(&rt, "memory");
    let nothing = inns[2].least();
    outs[0].send(2, post(5)).expect(&rt, "memory");
    outs[1].send(2, post(3)).expect(&rt, "memory");
    inns[2].poll(0);
    let one = inns[2].least();
    inns[2].poll(1);
    let both = inns[2].least();
    let first = inns[2].first(0).map(|x| x.clock);
    assert!(rt; nothing == Line::End && one == Line::At(at(5)) && both == Line::At(at(3)));
    assert!(rt; first == Some(5) && outs[1].len() == 1);
    Ok(())
}

#[test]
fn the_soonest_end_is_that_of_the_least_moment(rt: HostRuntime) -> Result<(), Fail> {
    let links = [(3, 0), (3, 1), (3, 2)];
    let (mut inns, mut outs) = wires(rt.alloc(), &links, 4).expect(&rt, "memory");
    outs[0].send(3, post(5)).expect(&rt, "memory");
    outs[1].send(3, post(3)).expect(&rt, "memory");
    outs[2].send(3, post(3)).expect(&rt, "memory");
    let unseen = inns[3].soonest();
    inns[3].poll_next();
    let seen = inns[3].soonest();
    inns[3].poll_next();
    inns[3].poll_next();
    let least = inns[3].soonest();
    let item = inns[3].take(1).map(|x| x.clock);
    let next = inns[3].soonest();
    assert!(rt; unseen.is_none() && seen == Some(0) && least == Some(1));
    assert!(rt; item == Some(3) && next == Some(2));
    Ok(())
}
