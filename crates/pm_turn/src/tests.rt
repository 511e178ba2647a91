use crate::{Fit, Marked, Turns};
use pm_base::List;
use std::test::Fail;

#[derive(Drop)]
struct Number(u32);

impl Marked for Number {
    ghost fits = { λ _ _. Unit {0} };
}

impl Fit for Number {
    ghost same = { λ _. tt };
}

#[test]
fn one_seat_at_a_time_holds_a_turn(rt: HostRuntime) -> Result<(), Fail> {
    let values = Vec::from_array(rt.alloc(), [Number(10), Number(20)]).expect(&rt, "memory");
    let made = Turns::new(rt.alloc(), List::from_vec(values));
    let (turns, mut seat) = made.expect(&rt, "memory");
    let mut other = turns.split(&mut seat);
    let first = turns.try_take(&mut seat, 0).expect(&rt, "the turn is free");
    assert!(rt; first.0 == 10);
    assert!(rt; turns.try_take(&mut seat, 0).is_none() && turns.try_take(&mut other, 0).is_none());
    turns.give(&mut seat, 0, Number(11));
    let again = turns
        .try_take(&mut other, 0)
        .expect(&rt, "the turn was given back");
    assert!(rt; again.0 == 11);
    turns.give(&mut other, 0, again);
    turns.join(&mut seat, other);
    let all = turns.close(seat).into_vec();
    assert!(rt; all.len() == 2 && all[0].0 == 11 && all[1].0 == 20);
    Ok(())
}
