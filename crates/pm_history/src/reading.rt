ghost use Rattle.std.specs.Prelude.{◌≡◌, ◌≢◌, IfErr, IfOk, List as Seq, Ok, Err, ℕ};
ghost use Rattle.std.specs.List.{AllByRecursion};
ghost use Rattle.pm_base.specs.declared.run.Event.{Event as TheEvent};
ghost use Rattle.pm_history.specs.Journals.{IsFirstFault, IsWritable, journal_text};
ghost use Rattle.pm_history.specs.declared.fault.JournalFault.TheVariants as fault;

use crate::fault::JournalFault;
use crate::scanning::event;
use pm_base::Journal;
use std::alloc::Global;

/// The journal of a text. Each line has a line feed at its end; a text without a line is the empty journal.
pub fn read(alloc: Global, bytes: &[u8]) -> Result<Journal, JournalFault>
    ensures text { IfOk result (λ j. journal_text j ≡ bytes.now) }
    ensures fault { IfErr result (λ f. (n : ℕ) → f ≡ fault.Line n → IsFirstFault n bytes.now) }
    ensures reads { (j : Seq TheEvent) → AllByRecursion IsWritable j → bytes.now ≡ journal_text j →
        result ≢ Err fault.Memory → result ≡ Ok j }
    ensures refuses { (n : ℕ) → IsFirstFault n bytes.now → result ≢ Err fault.Memory → result ≡ Err (fault.Line n) }
{
    let mut journal = Journal::new(alloc);
    let mut rest = bytes;
    'lines: while !rest.is_empty() {
        let Some((event, after)) = event(rest) else {
            return Err(JournalFault::Line {
                number: journal.len() as u64 + 1,
            });
        };
        if journal.push(event).is_err() {
            return Err(JournalFault::Memory);
        }
        rest = after;
    }
    Ok(journal)
}
