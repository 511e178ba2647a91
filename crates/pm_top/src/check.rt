ghost use Rattle.std.specs.Prelude.{◌≡◌, ◌≢◌, ◌++◌, ◌⊎◌, ◌≤◌, IfOk, OnOk, codes, decimal, string_bytes};
ghost use Rattle.std.specs.Io.KnownBytes.{Appends};
ghost use Rattle.pm_io.specs.Causes.{AppendsPart, AppendsPrefix, Rose};
ghost use Rattle.pm_top.specs.Outputs.{check_line};

use itoa::Buffer;
use pm_base::Memory;
use pm_io::{Sink, write_whole};
use pm_kernel::Outcome;
use pm_plan::Plan;
use std::alloc::Global;

/// Adds a word and a number.
pub fn add(line: &mut String, word: &str, n: u64) -> Result<(), Memory>
    ensures { OnOk result (string_bytes line.new ≡ string_bytes line.old ++ (word.now ++ decimal n)) }
{
    let mut buffer = Buffer::new();
    line.push_str(word)?;
    line.push_str(buffer.format(n))?;
    Ok(())
}

/// How many parts of each kind a plan has.
fn check_line(alloc: Global, plan: &Plan) -> Result<String, Memory>
    ensures { IfOk result (λ s. string_bytes s ≡ check_line plan.now) }
{
    let mut line = String::new(alloc);
    add(&mut line, "ok clps ", plan.clps.len() as u64)?;
    add(&mut line, " classes ", plan.classes.len() as u64)?;
    add(&mut line, " vars ", plan.vars.len() as u64)?;
    add(&mut line, " agents ", plan.agents.len() as u64)?;
    line.push_str("\n")?;
    Ok(line)
}

/// Writes the line of a plan's parts.
pub fn write_check<K: Sink>(alloc: Global, plan: &Plan, out: &mut K) -> Outcome
    ensures done { result ≡ Outcome.Done → Appends (K.holds out.old) (K.holds out.new) (check_line plan.now) }
    ensures part { AppendsPrefix (K.holds out.old) (K.holds out.new) (check_line plan.now) }
    ensures unfinished { result ≢ Outcome.Done → AppendsPart (K.holds out.old) (K.holds out.new) (check_line plan.now) }
    ensures cause { result ≡ Outcome.WriteFault → Rose (K.faults out.old) (K.faults out.new)
        ⊎ Rose (K.stalls out.old) (K.stalls out.new) }
    ensures wrote { result ≢ Outcome.BudgetSpent }
    ensures faults { K.faults out.old ≤ K.faults out.new }
    ensures stalls { K.stalls out.old ≤ K.stalls out.new }
{
    match check_line(alloc, plan) {
        Ok(line) => match write_whole(out, line.as_bytes()) {
            Ok(()) => Outcome::Done,
            Err(_) => Outcome::WriteFault,
        },
        Err(_) => Outcome::Memory,
    }
}
