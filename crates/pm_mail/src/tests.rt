ghost use Rattle.std.specs.Prelude.{◌≡◌};

use crate::Mail;
use pm_base::{Line, Memory, Num, Stamp};
use pm_message::Message;
use std::alloc::Global;
use std::process::Abort;
use std::test::Fail;

fn wake(agent: u32, time: u64) -> Message {
    Message::Wake {
        num: Num { agent, seq: 0 },
        stamp: Stamp { time, agent },
    }
}

fn next_time(rt: &impl Abort, mail: &mut Mail, to: u32, from: u32, time: Option<u64>) {
    let next = match mail.take(to, from) {
        Some(message) => Some(message.stamp().time),
        None => None,
    };
    assert_eq!(rt; next, time);
}

#[test]
fn links_are_taken_in_order(rt: HostRuntime) -> Result<(), Fail> {
    let alloc = rt.alloc();
    let mut mail = Mail::new(alloc);
    mail.open(alloc, 1, 2)?;
    mail.open(alloc, 1, 2)?;
    assert!(rt; mail.has_link(1, 2) && !mail.has_link(2, 1));
    assert_eq!(rt; mail.least(), Line::End);
    mail.post(alloc, 1, 2, wake(0, 9))?;
    mail.post(alloc, 2, 1, wake(1, 4))?;
    mail.post(alloc, 1, 2, wake(0, 5))?;
    assert_eq!(rt; mail.least(), Line::At(Stamp { time: 4, agent: 1 }));
    assert!(rt; mail.first(1, 2).is_some());
    next_time(&rt, &mut mail, 1, 2, Some(9));
    next_time(&rt, &mut mail, 1, 2, Some(5));
    next_time(&rt, &mut mail, 1, 2, None);
    next_time(&rt, &mut mail, 3, 3, None);
    next_time(&rt, &mut mail, 2, 1, Some(4));
    assert_eq!(rt; mail.least(), Line::End);
    Ok(())
}

// Posts a message of that time from each of these senders to process 5.
fn post_from(mail: &mut Mail, alloc: Global, posts: &[(u32, u64)]) -> Result<(), Memory> {
    for post in posts {
        mail.post(alloc, 5, post.0, wake(4, post.1))?;
    }
    Ok(())
}

#[test]
fn the_least_first_message_is_next(rt: HostRuntime) -> Result<(), Fail> {
    let alloc = rt.alloc();
    let mut mail = Mail::new(alloc);
    assert_eq!(rt; mail.next(5), None);
    mail.open(alloc, 5, 1)?;
    assert_eq!(rt; mail.next(5), None);
    // The first messages: sender 3 at 7, sender 1 at 7, sender 2 at 6; behind them, sender 3 at 2, sender 2 at 8.
    post_from(&mut mail, alloc, &[(3, 7), (1, 7), (2, 6), (3, 2), (2, 8)])?;
    assert_eq!(rt; mail.next(4), None);
    mail.post(alloc, 7, 5, wake(0, 1))?;
    assert_eq!(rt; mail.next_receiver(0), Some(5));
    assert_eq!(rt; mail.next_receiver(5), Some(5));
    assert_eq!(rt; mail.next_receiver(6), Some(7));
    assert_eq!(rt; mail.next_receiver(8), None);
    for want in [(2, 6), (1, 7), (3, 7), (3, 2), (2, 8)] {
        assert_eq!(rt; mail.next(5), Some(want.0));
        next_time(&rt, &mut mail, 5, want.0, Some(want.1));
    }
    assert_eq!(rt; mail.next(5), None);
    assert_eq!(rt; mail.next_receiver(0), Some(7));
    Ok(())
}
