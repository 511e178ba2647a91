// The optimistic run: what it commits, and behind it the end line and the journal's lines.
ghost use Rattle.std.specs.Prelude.{◌≡◌, ◌≢◌, ◌++◌, ◌⊎◌, ◌≤◌};
ghost use Rattle.std.specs.Io.KnownBytes.{Appends};
ghost use Rattle.pm_history.specs.Journals.{event_line, journal_text};
ghost use Rattle.pm_kernel.specs.Counts.{counted_on, no_counts};
ghost use Rattle.pm_sim.specs.Worlds.{committed};
ghost use Rattle.pm_io.specs.Causes.{AppendsPart, Rose};
ghost use Rattle.pm_model.specs.Traces.{end_line};
ghost use Rattle.pm_plan.specs.Plans.{IsValid};
ghost use Rattle.pm_top.specs.Endings.{ending_of};
ghost use Rattle.pm_top.specs.Makers.{Makes};
ghost use Rattle.pm_top.specs.Outputs.{asked_lines};
ghost use Rattle.pm_top.specs.Printed.{IsRunPrinted};
ghost use Rattle.pm_top.specs.Speech.{sight};
ghost use Rattle.pm_words.specs.Ranges.{IsInRange};

use crate::makers::made_by;
use crate::run::write_end;
use pm_base::{Event, Journal, List, RunSettings};
use pm_history::print;
use pm_io::{Sink, write_whole};
use pm_kernel::{Outcome, Ran};
use pm_plan::Plan;
use pm_words::Settings;
use std::alloc::Global;

/// Writes the line of an event.
fn write_event<K: Sink>(alloc: Global, event: &Event, out: &mut K) -> Outcome
    ensures done { result ≡ Outcome.Done → Appends (K.holds out.old) (K.holds out.new) (event_line event.now) }
    ensures unfinished { result ≢ Outcome.Done → AppendsPart (K.holds out.old) (K.holds out.new) (event_line event.now) }
    ensures cause { result ≡ Outcome.WriteFault → Rose (K.faults out.old) (K.faults out.new)
        ⊎ Rose (K.stalls out.old) (K.stalls out.new) }
    ensures wrote { result ≢ Outcome.BudgetSpent }
    ensures faults { K.faults out.old ≤ K.faults out.new }
    ensures stalls { K.stalls out.old ≤ K.stalls out.new }
{
    let mut journal = List::new(alloc);
    if journal.push(*event).is_err() {
        return Outcome::Memory;
    }
    let bytes = match print(alloc, &journal) {
        Ok(bytes) => bytes,
        Err(_) => return Outcome::Memory,
    };
    match write_whole(out, bytes.as_slice()) {
        Ok(()) => Outcome::Done,
        Err(_) => Outcome::WriteFault,
    }
}

/// Writes the lines of events, each by itself.
fn write_events<K: Sink>(alloc: Global, events: &[Event], out: &mut K) -> Outcome
    ensures done { result ≡ Outcome.Done → Appends (K.holds out.old) (K.holds out.new) (journal_text events.now) }
    ensures unfinished { result ≢ Outcome.Done →
        AppendsPart (K.holds out.old) (K.holds out.new) (journal_text events.now) }
    ensures cause { result ≡ Outcome.WriteFault → Rose (K.faults out.old) (K.faults out.new)
        ⊎ Rose (K.stalls out.old) (K.stalls out.new) }
    ensures wrote { result ≢ Outcome.BudgetSpent }
    ensures faults { K.faults out.old ≤ K.faults out.new }
    ensures stalls { K.stalls out.old ≤ K.stalls out.new }
{
    for event in events {
        match write_event(alloc, event, out) {
            Outcome::Done => {}
            stopped => return stopped,
        }
    }
    Outcome::Done
}

/// Writes a journal's lines where they are asked for.
fn write_asked<K: Sink>(alloc: Global, asked: bool, journal: &Journal, out: &mut K) -> Outcome
    ensures done { result ≡ Outcome.Done →
        Appends (K.holds out.old) (K.holds out.new) (asked_lines asked journal.now) }
    ensures unfinished { result ≢ Outcome.Done →
        AppendsPart (K.holds out.old) (K.holds out.new) (asked_lines asked journal.now) }
    ensures cause { result ≡ Outcome.WriteFault → Rose (K.faults out.old) (K.faults out.new)
        ⊎ Rose (K.stalls out.old) (K.stalls out.new) }
    ensures wrote { result ≢ Outcome.BudgetSpent }
    ensures faults { K.faults out.old ≤ K.faults out.new }
    ensures stalls { K.stalls out.old ≤ K.stalls out.new }
{
    if asked {
        write_events(alloc, journal.as_slice(), out)
    } else {
        Outcome::Done
    }
}

/// Writes the end line, and behind it the journal's lines where they are asked for.
pub fn write_rest<K: Sink>(
    alloc: Global,
    steps: u64,
    asked: bool,
    journal: &Journal,
    out: &mut K,
) -> Outcome
    ensures done { result ≡ Outcome.Done →
        Appends (K.holds out.old) (K.holds out.new) (end_line steps ++ asked_lines asked journal.now) }
    ensures unfinished { result ≢ Outcome.Done →
        AppendsPart (K.holds out.old) (K.holds out.new) (end_line steps ++ asked_lines asked journal.now) }
    ensures cause { result ≡ Outcome.WriteFault → Rose (K.faults out.old) (K.faults out.new)
        ⊎ Rose (K.stalls out.old) (K.stalls out.new) }
    ensures wrote { result ≢ Outcome.BudgetSpent }
    ensures faults { K.faults out.old ≤ K.faults out.new }
    ensures stalls { K.stalls out.old ≤ K.stalls out.new }
{
    match write_end(alloc, steps, out) {
        Outcome::Done => write_asked(alloc, asked, journal, out),
        stopped => stopped,
    }
}

/// Makes the optimistic run of a plan: what is committed is written as it is, and behind all of it the end line and, where
/// they are asked for, the journal's lines.
pub fn write_optimistic<K: Sink, F: FnOnce(&Plan, &RunSettings, &mut K) -> Ran>(
    make: F,
    alloc: Global,
    plan: &Plan,
    settings: &Settings,
    out: &mut K,
) -> Ran
    requires makes { Makes F.FnOnce (sight K.holds K.faults K.stalls) make }
    requires valid { IsValid plan.now }
    requires range { IsInRange settings.now.run }
    ensures printed { IsRunPrinted settings.now plan.now (ending_of result.outcome) result.journal
        (K.holds out.old) (K.holds out.new) }
    ensures counts { result.outcome ≡ Outcome.Done →
        result.counts ≡ counted_on no_counts (committed plan.now result.journal) }
    ensures cause { result.outcome ≡ Outcome.WriteFault → Rose (K.faults out.old) (K.faults out.new)
        ⊎ Rose (K.stalls out.old) (K.stalls out.new) }
    ensures faults { K.faults out.old ≤ K.faults out.new }
    ensures stalls { K.stalls out.old ≤ K.stalls out.new }
{
    let ran = made_by(make, plan, &settings.run, out);
    match ran.outcome {
        Outcome::Done => {
            let outcome = write_rest(alloc, ran.counts.steps, settings.journal, &ran.journal, out);
            Ran {
                outcome,
                journal: ran.journal,
                counts: ran.counts,
            }
        }
        _ => ran,
    }
}
