ghost use Rattle.std.specs.Prelude.{◌≡◌, ◌≢◌, ◌≤◌, ◌<◌, ◌∷◌, ◌⊎◌, [], List, length};
ghost use Rattle.std.specs.Io.KnownBytes.{Appends};
ghost use Rattle.pm_io.specs.Causes.{AppendsPart, AppendsPrefix, Rose};
ghost use Rattle.pm_base.specs.declared.rows.Entry.{Entry as TheEntry};
ghost use Rattle.pm_plan.specs.Limits.{IsWithinLimits};
ghost use Rattle.pm_model.specs.Runs.{rest, sequential_run};
ghost use Rattle.pm_model.specs.Traces.{line, end_line, trace};
ghost use Rattle.pm_top.specs.Outputs.{first_lines};

use pm_io::{Sink, write_whole};
use pm_kernel::Outcome;
use pm_plan::Plan;
use pm_seq::Seq;
use pm_trace::{end_line, line};
use std::alloc::Global;

/// How a step went.
#[derive(Clone, Copy, Debug, PartialEq, Eq)]
enum Stepped {
    Wrote,
    End,
    WriteFault,
    Memory,
}

/// Does the next step and writes its line.
fn write_step<K: Sink>(alloc: Global, plan: &Plan, seq: &mut Seq, out: &mut K) -> Stepped
    requires { seq.old.plan ≡ plan.now }
    ensures wrote { result ≡ Stepped.Wrote → (e : TheEntry)
        × (rest plan.now seq.old.state ≡ e ∷ rest plan.now seq.new.state)
        × Appends (K.holds out.old) (K.holds out.new) (line plan.now e) }
    ensures end { result ≡ Stepped.End → (rest plan.now seq.old.state ≡ []) × (out.new ≡ out.old) }
    ensures fault { result ≡ Stepped.WriteFault → (e : TheEntry) × (es : List TheEntry)
        × (rest plan.now seq.old.state ≡ e ∷ es)
        × AppendsPart (K.holds out.old) (K.holds out.new) (line plan.now e) }
    ensures memory { result ≡ Stepped.Memory → out.new ≡ out.old }
    ensures cause { result ≡ Stepped.WriteFault → Rose (K.faults out.old) (K.faults out.new)
        ⊎ Rose (K.stalls out.old) (K.stalls out.new) }
    ensures plan { seq.new.plan ≡ seq.old.plan }
    ensures faults { K.faults out.old ≤ K.faults out.new }
    ensures stalls { K.stalls out.old ≤ K.stalls out.new }
{
    let entry = match seq.step(alloc) {
        Ok(Some(entry)) => entry,
        Ok(None) => return Stepped::End,
        Err(_) => return Stepped::Memory,
    };
    let bytes = match line(alloc, plan, &entry) {
        Ok(bytes) => bytes,
        Err(_) => return Stepped::Memory,
    };
    match write_whole(out, bytes.as_slice()) {
        Ok(()) => Stepped::Wrote,
        Err(_) => Stepped::WriteFault,
    }
}

/// Writes the trace of the sequential run: each line by itself, so that what was written is a prefix of the trace
/// wherever the run stops. It does at most `budget` steps.
pub fn write_run<K: Sink>(alloc: Global, plan: &Plan, budget: u64, out: &mut K) -> Outcome
    requires { IsWithinLimits plan.now }
    ensures done { result ≡ Outcome.Done → Appends (K.holds out.old) (K.holds out.new) (trace plan.now) }
    ensures within { result ≡ Outcome.Done → length (sequential_run plan.now) ≤ budget }
    ensures spent { result ≡ Outcome.BudgetSpent → (budget < length (sequential_run plan.now))
        × Appends (K.holds out.old) (K.holds out.new)
        (first_lines budget plan.now) }
    ensures part { AppendsPrefix (K.holds out.old) (K.holds out.new) (trace plan.now) }
    ensures unfinished { result ≢ Outcome.Done → AppendsPart (K.holds out.old) (K.holds out.new) (trace plan.now) }
    ensures lacks { result ≡ Outcome.WriteFault → budget < length (sequential_run plan.now) →
        AppendsPart (K.holds out.old) (K.holds out.new)
        (first_lines budget plan.now) }
    ensures cause { result ≡ Outcome.WriteFault → Rose (K.faults out.old) (K.faults out.new)
        ⊎ Rose (K.stalls out.old) (K.stalls out.new) }
    ensures faults { K.faults out.old ≤ K.faults out.new }
    ensures stalls { K.stalls out.old ≤ K.stalls out.new }
{
    let mut seq = match Seq::new(alloc, plan) {
        Ok(seq) => seq,
        Err(_) => return Outcome::Memory,
    };
    let mut steps: u64 = 0;
    'steps: while steps < budget {
        match write_step(alloc, plan, &mut seq, out) {
            Stepped::Wrote => steps += 1,
            Stepped::End => return write_end(alloc, steps, out),
            Stepped::WriteFault => return Outcome::WriteFault,
            Stepped::Memory => return Outcome::Memory,
        }
    }
    if seq.done() {
        return write_end(alloc, steps, out);
    }
    Outcome::BudgetSpent
}

/// Writes the end line.
pub fn write_end<K: Sink>(alloc: Global, steps: u64, out: &mut K) -> Outcome
    ensures done { result ≡ Outcome.Done → Appends (K.holds out.old) (K.holds out.new) (end_line steps) }
    ensures part { AppendsPrefix (K.holds out.old) (K.holds out.new) (end_line steps) }
    ensures unfinished { result ≢ Outcome.Done → AppendsPart (K.holds out.old) (K.holds out.new) (end_line steps) }
    ensures cause { result ≡ Outcome.WriteFault → Rose (K.faults out.old) (K.faults out.new)
        ⊎ Rose (K.stalls out.old) (K.stalls out.new) }
    ensures wrote { result ≢ Outcome.BudgetSpent }
    ensures faults { K.faults out.old ≤ K.faults out.new }
    ensures stalls { K.stalls out.old ≤ K.stalls out.new }
{
    match end_line(alloc, steps) {
        Ok(bytes) => match write_whole(out, bytes.as_slice()) {
            Ok(()) => Outcome::Done,
            Err(_) => Outcome::WriteFault,
        },
        Err(_) => Outcome::Memory,
    }
}
