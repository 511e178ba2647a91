ghost use Rattle.std.specs.Prelude.{◌≡◌, ◌++◌, IfOk, OnOk, decimal};
ghost use Rattle.std.specs.List.{AllByRecursion};
ghost use Rattle.pm_history.specs.Journals.{IsWritable, event_line, journal_text, pair_text};

use itoa::Buffer;
use pm_base::{Event, Journal, Line, Memory};
use std::alloc::Global;

fn add(out: &mut Vec<u8>, bytes: &[u8]) -> Result<(), Memory>
    ensures { OnOk result (out.new.items ≡ out.old.items ++ bytes.now) }
{
    out.extend_from_slice(bytes)?;
    Ok(())
}

fn add_number(out: &mut Vec<u8>, n: u64) -> Result<(), Memory>
    ensures { OnOk result (out.new.items ≡ out.old.items ++ decimal n) }
{
    let mut buffer = Buffer::new();
    add(out, buffer.format(n).as_bytes())
}

/// Two numbers and the end of their line.
fn add_pair(out: &mut Vec<u8>, first: u64, second: u32) -> Result<(), Memory>
    ensures { OnOk result (out.new.items ≡ out.old.items ++ pair_text first second) }
{
    add_number(out, first)?;
    add(out, b" ")?;
    add_number(out, second as u64)?;
    add(out, b"\n")
}

fn add_event(out: &mut Vec<u8>, event: Event) -> Result<(), Memory>
    ensures line { OnOk result (out.new.items ≡ out.old.items ++ event_line event) }
    ensures numbers { IsWritable event }
{
    match event {
        Event::Deliver { to, from } => {
            add(out, b"#j d ")?;
            add_pair(out, to as u64, from)
        }
        Event::Commit {
            line: Line::At(stamp),
        } => {
            add(out, b"#j c ")?;
            add_pair(out, stamp.time, stamp.agent)
        }
        Event::Commit { line: Line::End } => add(out, b"#j c end\n"),
    }
}

/// The lines of a journal's events. That the numbers fit their types is said for those who read the text back.
pub fn print(alloc: Global, journal: &Journal) -> Result<Vec<u8>, Memory>
    ensures text { IfOk result (λ v. v.items ≡ journal_text journal.now) }
    ensures numbers { OnOk result (AllByRecursion IsWritable journal.now) }
{
    let mut out = Vec::new(alloc);
    for event in journal.as_slice() {
        add_event(&mut out, *event)?;
    }
    Ok(out)
}
