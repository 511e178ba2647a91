// The modes that write one text of a plan, which is made whole before any of it is written.
ghost use Rattle.std.specs.Prelude.{ℕ, ◌≡◌, ◌≢◌, ◌⊎◌, ◌<◌, ◌≤◌, ◌^◌};
ghost use Rattle.std.specs.Io.KnownBytes.{Appends};
ghost use Rattle.pm_io.specs.Causes.{AppendsPart, Rose};
ghost use Rattle.pm_plan.specs.Plans.{IsValid};
ghost use Rattle.pm_scenario.specs.declared.fault.ScenarioFault.{ScenarioFault as TheFault};
ghost use Rattle.pm_top.specs.Headline.{EndsRun};
ghost use Rattle.pm_top.specs.Printed.{IsCutPrinted, IsPlacePrinted, IsUpgradePrinted};

use crate::outcome::Ending;
use pm_io::{Sink, write_whole};
use pm_place::{PlaceFault, place, placing_text};
use pm_plan::Plan;
use pm_resume::{CutFault, cut};
use pm_upgrade::print_plan;
use pm_words::Settings;
use std::alloc::Global;

/// Writes a text.
fn write_text<K: Sink>(text: &[u8], out: &mut K) -> Ending
    ensures ended { (result ≡ Ending.Done) ⊎ (result ≡ Ending.WriteFault) }
    ensures done { result ≡ Ending.Done → Appends (K.holds out.old) (K.holds out.new) text.now }
    ensures fault { result ≡ Ending.WriteFault → AppendsPart (K.holds out.old) (K.holds out.new) text.now }
    ensures cause { result ≡ Ending.WriteFault → Rose (K.faults out.old) (K.faults out.new)
        ⊎ Rose (K.stalls out.old) (K.stalls out.new) }
{
    match write_whole(out, text) {
        Ok(()) => Ending::Done,
        Err(_) => Ending::WriteFault,
    }
}

/// Writes a plan as a scenario in the present form.
pub fn write_upgrade<K: Sink>(alloc: Global, plan: &Plan, out: &mut K) -> Ending
    requires valid { IsValid plan.now }
    requires moves { plan.now.move_after < 2 ^ 63 }
    ensures printed { IsUpgradePrinted plan.now result (K.holds out.old) (K.holds out.new) }
    ensures ran { EndsRun result }
    ensures plan { (f : TheFault) → result ≢ Ending.Refused f }
    ensures retired { (agent : ℕ) → result ≢ Ending.Retired agent }
    ensures illegal { (line : ℕ) → result ≢ Ending.Illegal line }
    ensures unspent { result ≢ Ending.BudgetSpent }
    ensures cause { result ≡ Ending.WriteFault → Rose (K.faults out.old) (K.faults out.new)
        ⊎ Rose (K.stalls out.old) (K.stalls out.new) }
{
    match print_plan(alloc, plan) {
        Ok(text) => write_text(text.as_bytes(), out),
        Err(_) => Ending::Memory,
    }
}

/// Writes where the variables of a plan are best kept, where its run has at most so many steps.
pub fn write_place<K: Sink>(alloc: Global, plan: &Plan, budget: u64, out: &mut K) -> Ending
    requires valid { IsValid plan.now }
    requires budget { budget ≤ 20000000 }
    ensures printed { IsPlacePrinted budget plan.now result (K.holds out.old) (K.holds out.new) }
    ensures ran { EndsRun result }
    ensures plan { (f : TheFault) → result ≢ Ending.Refused f }
    ensures retired { (agent : ℕ) → result ≢ Ending.Retired agent }
    ensures illegal { (line : ℕ) → result ≢ Ending.Illegal line }
    ensures cause { result ≡ Ending.WriteFault → Rose (K.faults out.old) (K.faults out.new)
        ⊎ Rose (K.stalls out.old) (K.stalls out.new) }
{
    let placing = match place(alloc, plan, budget) {
        Ok(placing) => placing,
        Err(PlaceFault::BudgetSpent) => return Ending::BudgetSpent,
        Err(PlaceFault::Memory) => return Ending::Memory,
    };
    match placing_text(alloc, plan, &placing) {
        Ok(text) => write_text(text.as_slice(), out),
        Err(_) => Ending::Memory,
    }
}

/// Writes a scenario whose run is what is left of a plan's run from a time on.
pub fn write_cut<K: Sink>(alloc: Global, plan: &Plan, settings: &Settings, out: &mut K) -> Ending
    requires valid { IsValid plan.now }
    requires moves { plan.now.move_after < 2 ^ 63 }
    ensures printed { IsCutPrinted settings.now plan.now result (K.holds out.old) (K.holds out.new) }
    ensures ran { EndsRun result }
    ensures plan { (f : TheFault) → result ≢ Ending.Refused f }
    ensures illegal { (line : ℕ) → result ≢ Ending.Illegal line }
    ensures cause { result ≡ Ending.WriteFault → Rose (K.faults out.old) (K.faults out.new)
        ⊎ Rose (K.stalls out.old) (K.stalls out.new) }
{
    let rest = match cut(alloc, plan, settings.from, settings.run.budget) {
        Ok(rest) => rest,
        Err(CutFault::BudgetSpent) => return Ending::BudgetSpent,
        Err(CutFault::Retired { agent }) => return Ending::Retired(agent),
        Err(CutFault::Memory) => return Ending::Memory,
    };
    match print_plan(alloc, &rest) {
        Ok(text) => write_text(text.as_bytes(), out),
        Err(_) => Ending::Memory,
    }
}
