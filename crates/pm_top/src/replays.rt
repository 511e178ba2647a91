// A journal that is played again: what it commits.
ghost use Rattle.std.specs.Prelude.{ℕ, ◌≡◌, ◌≢◌, ◌++◌, ◌⊎◌, ◌≤◌, [], if◌then◌else◌, length};
ghost use Rattle.std.specs.Io.KnownBytes.{Appends};
ghost use Rattle.pm_io.specs.Causes.{AppendsPart, Rose};
ghost use Rattle.pm_model.specs.Traces.{end_line, trace_text};
ghost use Rattle.pm_plan.specs.Plans.{IsValid};
ghost use Rattle.pm_scenario.specs.declared.fault.ScenarioFault.{ScenarioFault as TheFault};
ghost use Rattle.pm_top.specs.Headline.{EndsRun};
ghost use Rattle.pm_top.specs.Printed.{IsReplayPrinted};

use crate::outcome::Ending;
use crate::run::write_end;
use crate::work::{Worked, still};
use pm_base::Entry;
use pm_io::Sink;
use pm_kernel::{Counts, Outcome, Wrote, write_entries};
use pm_plan::Plan;
use pm_replay::{ReplayFault, replay};
use std::alloc::Global;

/// Writes the end line where all is committed.
fn write_last<K: Sink>(alloc: Global, steps: u64, ended: bool, out: &mut K) -> Outcome
    ensures done { result ≡ Outcome.Done → Appends (K.holds out.old) (K.holds out.new)
        (if ended then end_line steps else []) }
    ensures unfinished { result ≢ Outcome.Done → AppendsPart (K.holds out.old) (K.holds out.new)
        (if ended then end_line steps else []) }
    ensures cause { result ≡ Outcome.WriteFault → Rose (K.faults out.old) (K.faults out.new)
        ⊎ Rose (K.stalls out.old) (K.stalls out.new) }
    ensures wrote { result ≢ Outcome.BudgetSpent }
    ensures faults { K.faults out.old ≤ K.faults out.new }
    ensures stalls { K.stalls out.old ≤ K.stalls out.new }
{
    if ended {
        write_end(alloc, steps, out)
    } else {
        Outcome::Done
    }
}

/// Writes the lines of entries, and the end line where they are all.
fn write_committed<K: Sink>(
    alloc: Global,
    plan: &Plan,
    entries: &[Entry],
    ended: bool,
    out: &mut K,
) -> Outcome
    ensures done { result ≡ Outcome.Done → Appends (K.holds out.old) (K.holds out.new)
        (trace_text plan.now entries.now ++ (if ended then end_line (length entries.now) else [])) }
    ensures unfinished { result ≢ Outcome.Done → AppendsPart (K.holds out.old) (K.holds out.new)
        (trace_text plan.now entries.now ++ (if ended then end_line (length entries.now) else [])) }
    ensures cause { result ≡ Outcome.WriteFault → Rose (K.faults out.old) (K.faults out.new)
        ⊎ Rose (K.stalls out.old) (K.stalls out.new) }
    ensures wrote { result ≢ Outcome.BudgetSpent }
{
    let mut counts = Counts::none();
    match write_entries(alloc, plan, entries, &mut counts, out) {
        Wrote::All => write_last(alloc, entries.len() as u64, ended, out),
        Wrote::WriteFault => Outcome::WriteFault,
        Wrote::Memory => Outcome::Memory,
    }
}

/// Plays the journal of that text on a plan, and writes what it commits.
pub fn write_replay<K: Sink>(alloc: Global, plan: &Plan, text: &[u8], out: &mut K) -> Worked
    requires valid { IsValid plan.now }
    requires short { length text.now ≤ 67108864 }
    ensures printed { IsReplayPrinted plan.now text.now result.ending result.journal
        (K.holds out.old) (K.holds out.new) }
    ensures ran { EndsRun result.ending }
    ensures plan { (f : TheFault) → result.ending ≢ Ending.Refused f }
    ensures unspent { result.ending ≢ Ending.BudgetSpent }
    ensures retired { (agent : ℕ) → result.ending ≢ Ending.Retired agent }
    ensures cause { result.ending ≡ Ending.WriteFault → Rose (K.faults out.old) (K.faults out.new)
        ⊎ Rose (K.stalls out.old) (K.stalls out.new) }
{
    let replayed = match replay(alloc, plan, text) {
        Ok(replayed) => replayed,
        Err(ReplayFault::Line { number }) => return still(alloc, Ending::Illegal(number)),
        Err(ReplayFault::Memory) => return still(alloc, Ending::Memory),
    };
    let entries = replayed.entries.as_slice();
    match write_committed(alloc, plan, entries, replayed.ended, out) {
        Outcome::Done => Worked {
            ending: Ending::Done,
            journal: replayed.journal,
        },
        Outcome::WriteFault => still(alloc, Ending::WriteFault),
        Outcome::Memory | Outcome::BudgetSpent => still(alloc, Ending::Memory),
    }
}
