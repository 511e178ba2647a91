// The generated run: what it comes to, in one line.
ghost use Rattle.std.specs.Prelude.{◌≡◌, ◌≢◌, ◌⊎◌, ◌≤◌, ◌∷◌, [], IfOk, string_bytes};
ghost use Rattle.std.specs.Io.KnownBytes.{Appends};
ghost use Rattle.pm_io.specs.Causes.{AppendsPart, Rose};
ghost use Rattle.pm_plan.specs.Plans.{IsValid};
ghost use Rattle.pm_top.specs.Demo.{sum_from, told_line};
ghost use Rattle.pm_top.specs.Endings.{ending_of};
ghost use Rattle.pm_top.specs.Makers.{Makes};
ghost use Rattle.pm_top.specs.Printed.{IsDemoPrinted};
ghost use Rattle.pm_top.specs.Speech.{sight};
ghost use Rattle.pm_words.specs.Ranges.{IsInRange};

use crate::check::add;
use crate::optimistic::write_optimistic;
use pm_base::{Memory, RunSettings};
use pm_io::{MemSink, Sink, write_whole};
use pm_kernel::{Counts, Outcome, Ran};
use pm_plan::Plan;
use pm_words::Settings;
use std::alloc::Global;

/// The number that a text comes to with one byte more.
fn next_sum(sum: u64, byte: u8) -> u64
    ensures { result ≡ sum_from sum (byte ∷ []) }
{
    sum.wrapping_mul(31).wrapping_add(byte as u64)
}

/// The number that a text comes to.
fn sum_of(text: &[u8]) -> u64
    ensures { result ≡ sum_from 0 text.now }
{
    let mut sum: u64 = 0;
    for byte in text {
        sum = next_sum(sum, *byte);
    }
    sum
}

/// The line that tells of a run.
fn told_line(alloc: Global, seed: u64, counts: &Counts, sum: u64) -> Result<String, Memory>
    ensures { IfOk result (λ s. string_bytes s ≡
        told_line seed counts.now.steps counts.now.hits counts.now.writes sum) }
{
    let mut line = String::new(alloc);
    add(&mut line, "demo ", seed)?;
    add(&mut line, " steps ", counts.steps)?;
    add(&mut line, " hits ", counts.hits)?;
    add(&mut line, " writes ", counts.writes)?;
    add(&mut line, " sum ", sum)?;
    line.push_str("\n")?;
    Ok(line)
}

/// Writes that line.
fn write_told<K: Sink>(alloc: Global, seed: u64, counts: &Counts, sum: u64, out: &mut K) -> Outcome
    ensures done { result ≡ Outcome.Done → Appends (K.holds out.old) (K.holds out.new)
        (told_line seed counts.now.steps counts.now.hits counts.now.writes sum) }
    ensures unfinished { result ≢ Outcome.Done → AppendsPart (K.holds out.old) (K.holds out.new)
        (told_line seed counts.now.steps counts.now.hits counts.now.writes sum) }
    ensures cause { result ≡ Outcome.WriteFault → Rose (K.faults out.old) (K.faults out.new)
        ⊎ Rose (K.stalls out.old) (K.stalls out.new) }
    ensures wrote { result ≢ Outcome.BudgetSpent }
    ensures faults { K.faults out.old ≤ K.faults out.new }
    ensures stalls { K.stalls out.old ≤ K.stalls out.new }
{
    match told_line(alloc, seed, counts, sum) {
        Ok(line) => match write_whole(out, line.as_bytes()) {
            Ok(()) => Outcome::Done,
            Err(_) => Outcome::WriteFault,
        },
        Err(_) => Outcome::Memory,
    }
}

/// Makes the optimistic run of a plan, and writes one line of what its whole run came to. The trace goes into memory: a write
/// that fails there wanted memory.
pub fn write_demo<K: Sink, M: FnOnce(&Plan, &RunSettings, &mut MemSink) -> Ran>(
    make: M,
    alloc: Global,
    plan: &Plan,
    settings: &Settings,
    out: &mut K,
) -> Ran
    requires makes { Makes M.FnOnce (sight ⟦<MemSink as Sink>⟧.holds ⟦<MemSink as Sink>⟧.faults ⟦<MemSink as Sink>⟧.stalls) make }
    requires valid { IsValid plan.now }
    requires range { IsInRange settings.now.run }
    ensures printed { IsDemoPrinted settings.now plan.now (ending_of result.outcome) result.journal
        (K.holds out.old) (K.holds out.new) }
    ensures cause { result.outcome ≡ Outcome.WriteFault → Rose (K.faults out.old) (K.faults out.new)
        ⊎ Rose (K.stalls out.old) (K.stalls out.new) }
    ensures faults { K.faults out.old ≤ K.faults out.new }
    ensures stalls { K.stalls out.old ≤ K.stalls out.new }
{
    let mut trace = MemSink::new(alloc, Vec::new(alloc));
    let quiet = Settings {
        journal: false,
        ..*settings
    };
    let ran = write_optimistic(make, alloc, plan, &quiet, &mut trace);
    match ran.outcome {
        Outcome::Done => {
            let outcome = write_told(
                alloc,
                settings.seed,
                &ran.counts,
                sum_of(trace.bytes()),
                out,
            );
            Ran {
                outcome,
                journal: ran.journal,
                counts: ran.counts,
            }
        }
        Outcome::WriteFault => Ran {
            outcome: Outcome::Memory,
            journal: ran.journal,
            counts: ran.counts,
        },
        Outcome::BudgetSpent | Outcome::Memory => ran,
    }
}
