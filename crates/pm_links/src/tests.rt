use crate::{draw, pair};
use std::test::Fail;

#[test]
fn items_come_in_the_order_in_which_they_were_sent(rt: HostRuntime) -> Result<(), Fail> {
    let (mut out, mut inn) = pair::<u32>(rt.alloc(), 2).expect(&rt, "memory");
    out.send(1).expect(&rt, "memory");
    out.send(2).expect(&rt, "memory");
    out.send(3).expect(&rt, "memory");
    out.send(4).expect(&rt, "memory");
    let one = inn.next();
    draw(&mut out, &mut inn).expect(&rt, "memory");
    let third = inn.item(1).copied();
    let first = inn.first().copied();
    let two = inn.next();
    let three = inn.next();
    let four = inn.next();
    let none = inn.next();
    assert!(rt; one == Some(1) && first == Some(2) && third == Some(3));
    assert!(rt; two == Some(2) && three == Some(3) && four == Some(4) && none.is_none());
    Ok(())
}

#[test]
fn what_had_no_room_follows_by_itself(rt: HostRuntime) -> Result<(), Fail> {
    let (mut out, mut inn) = pair::<u32>(rt.alloc(), 1).expect(&rt, "memory");
    out.send(1).expect(&rt, "memory");
    out.send(2).expect(&rt, "memory");
    let one = inn.first().copied();
    // the ring is empty again, so what had no room goes there with the next item that is sent
    out.send(3).expect(&rt, "memory");
    let again = inn.next();
    let two = inn.next();
    out.send(4).expect(&rt, "memory");
    let three = inn.first().copied();
    assert!(rt; one == Some(1) && again == Some(1) && two == Some(2) && three == Some(3));
    Ok(())
}
