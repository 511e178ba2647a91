//! Texts of journals that are printed, read and refused.
use crate::{Heard, History, JournalFault, merge, print, read};
use pm_base::{Event, Journal, Line, List, Stamp};
use std::alloc::AllocError;
use std::test::Fail;

const TEXT: &str = "#j d 0 1\n#j d 1 1\n#j d 0 1\n#j c 12 3\n#j c end\n";

#[test]
fn a_journal_is_printed_and_read(rt: HostRuntime) -> Result<(), Fail> {
    let alloc = rt.alloc();
    let mut journal = Journal::new(alloc);
    let line = Line::At(Stamp { time: 12, agent: 3 });
    for event in [
        Event::Deliver { to: 0, from: 1 },
        Event::Deliver { to: 1, from: 1 },
        Event::Deliver { to: 0, from: 1 },
        Event::Commit { line },
        Event::Commit { line: Line::End },
    ] {
        journal.push(event).map_err(|_| AllocError)?;
    }
    let bytes = print(alloc, &journal).map_err(|_| AllocError)?;
    assert!(rt; bytes.as_slice() == TEXT.as_bytes());
    match read(alloc, TEXT.as_bytes()) {
        Ok(read) => assert!(rt; read.as_slice() == journal.as_slice()),
        Err(JournalFault::Memory) => return Err(AllocError.into()),
        Err(JournalFault::Line { .. }) => assert!(rt; false),
    }
    Ok(())
}

#[test]
fn the_first_faulty_line_is_named(rt: HostRuntime) -> Result<(), Fail> {
    let rows = [
        ("", 0),
        ("#j d 0 01\n", 1),
        ("#j d 0 1", 1),
        ("#j d 0 1\r\n", 1),
        ("#j d 0 1\n\n", 2),
        ("#j d 4294967295 0\n#j d 4294967296 0\n", 2),
        (
            "#j c 18446744073709551615 0\n#j c 18446744073709551616 0\n",
            2,
        ),
        ("#j c end\n#j c end\n#j e 0 1\n#j d 0 01\n", 3),
        (" #j c end\n", 1),
        ("#j d 0 -1\n", 1),
        ("#j d  0 1\n", 1),
        ("#j c 00 1\n", 1),
    ];
    for (text, wanted) in rows {
        let told = match read(rt.alloc(), text.as_bytes()) {
            Ok(_) => 0,
            Err(JournalFault::Memory) => return Err(AllocError.into()),
            Err(JournalFault::Line { number }) => number,
        };
        assert_eq!(rt; told, wanted, "{text}");
    }
    Ok(())
}

#[test]
fn histories_merge_by_clock_and_then_by_process(rt: HostRuntime) -> Result<(), Fail> {
    let alloc = rt.alloc();
    let mut first = History::new(alloc, 0);
    first
        .hear(Heard { clock: 2, from: 1 })
        .expect(&rt, "memory");
    first
        .hear(Heard { clock: 4, from: 1 })
        .expect(&rt, "memory");
    let mut second = History::new(alloc, 1);
    second
        .hear(Heard { clock: 2, from: 1 })
        .expect(&rt, "memory");
    let mut histories = List::new(alloc);
    histories
        .push(second.copy(alloc).expect(&rt, "memory"))
        .expect(&rt, "memory");
    histories.push(first).expect(&rt, "memory");
    let journal = merge(alloc, &histories).expect(&rt, "memory");
    let bytes = print(alloc, &journal).expect(&rt, "memory");
    assert!(rt; bytes.as_slice() == "#j d 0 1\n#j d 1 1\n#j d 0 1\n".as_bytes());
    second.clear();
    assert!(rt; second.process() == 1 && second.heard().len() == 0);
    Ok(())
}
