ghost use Rattle.std.specs.Prelude.{◌≡◌, ◌≢◌, [], ◌∷◌, IfOk, List as Seq, None, codes, ℕ};
ghost use Rattle.std.specs.List.{AllByRecursion};
ghost use Rattle.pm_base.specs.declared.run.Event.{Event as TheEvent};
ghost use Rattle.pm_history.specs.Journals.{IsFirstFault, IsWritable, event_line, journal_text};
ghost use Rattle.pm_history.specs.Scans.{event_at};

use crate::fault::JournalFault;
use crate::printing::print;
use crate::reading::read;
use pm_base::{Event, Journal, Line, Memory};
use std::alloc::Global;

/// A law: a journal that is printed reads back as it is, but for want of memory.
pub fn printed_journals_read_back(alloc: Global, journal: &Journal) -> Result<Journal, Memory>
    ensures { IfOk result (λ j. j ≡ journal.now) }
{
    let bytes = print(alloc, journal)?;
    match read(alloc, bytes.as_slice()) {
        Ok(journal) => Ok(journal),
        Err(JournalFault::Line { .. }) => unreachable!(),
        Err(JournalFault::Memory) => Err(Memory),
    }
}

/// A law of the definitions: a text with a faulty line is no journal's, and it has one first faulty line.
pub fn faulty_texts_are_no_journals()
    ensures no_journal { (n : ℕ) → (bytes : Seq ℕ) → (j : Seq TheEvent) → AllByRecursion IsWritable j →
        IsFirstFault n bytes → bytes ≢ journal_text j }
    ensures one { (n m : ℕ) → (bytes : Seq ℕ) → IsFirstFault n bytes → IsFirstFault m bytes → n ≡ m }
{}

/// The lines of some events, and some texts that begin with no event's line.
pub fn worked_lines()
    ensures deliver { journal_text (Event.Deliver 0 1 ∷ Event.Deliver 1 1 ∷ []) ≡ codes "#j d 0 1\n#j d 1 1\n" }
    ensures commit { event_line (Event.Commit (Line.At (record { time = 12; agent = 3 }))) ≡ codes "#j c 12 3\n" }
    ensures end { event_line (Event.Commit Line.End) ≡ codes "#j c end\n" }
    ensures needless_zero { event_at (codes "#j d 0 01\n") ≡ None }
    ensures no_feed { event_at (codes "#j d 0 1") ≡ None }
    ensures carriage_return { event_at (codes "#j d 0 1\r\n") ≡ None }
    ensures two_spaces { event_at (codes "#j d 0  1\n") ≡ None }
    ensures too_great { event_at (codes "#j d 4294967296 1\n") ≡ None }
{}
