// The lowest run: what it commits, and behind it the end line and the journal's lines.
ghost use Rattle.std.specs.Prelude.{◌≡◌, ◌⊎◌, ◌≤◌};
ghost use Rattle.pm_io.specs.Causes.{Rose};
ghost use Rattle.pm_plan.specs.Plans.{IsValid};
ghost use Rattle.pm_top.specs.Endings.{ending_of};
ghost use Rattle.pm_top.specs.Printed.{IsLowestPrinted};
ghost use Rattle.pm_words.specs.Ranges.{IsInRange};

use crate::optimistic::write_rest;
use pm_io::Sink;
use pm_kernel::{Outcome, Ran};
use pm_lowest::run_lowest;
use pm_plan::Plan;
use pm_words::Settings;
use std::alloc::Global;

/// Makes the lowest run of a plan: what is committed is written as it is, and behind all of it the end line and, where they
/// are asked for, the journal's lines.
pub fn write_lowest<K: Sink>(alloc: Global, plan: &Plan, settings: &Settings, out: &mut K) -> Ran
    requires valid { IsValid plan.now }
    requires range { IsInRange settings.now.run }
    ensures printed { IsLowestPrinted settings.now plan.now (ending_of result.outcome) result.journal
        (K.holds out.old) (K.holds out.new) }
    ensures cause { result.outcome ≡ Outcome.WriteFault → Rose (K.faults out.old) (K.faults out.new)
        ⊎ Rose (K.stalls out.old) (K.stalls out.new) }
    ensures faults { K.faults out.old ≤ K.faults out.new }
    ensures stalls { K.stalls out.old ≤ K.stalls out.new }
{
    let ran = run_lowest(alloc, plan, settings.run.budget, out);
    match ran.outcome {
        Outcome::Done => {
            let outcome = write_rest(alloc, ran.counts.steps, settings.journal, &ran.journal, out);
            Ran {
                outcome,
                journal: ran.journal,
                counts: ran.counts,
            }
        }
        _ => ran,
    }
}
