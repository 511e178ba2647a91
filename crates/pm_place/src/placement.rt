ghost use Rattle.std.specs.Prelude.{◌≡◌, ◌<◌, ◌≤◌, Err, IfOk, length, sum};
ghost use Rattle.pm_model.specs.Runs.{sequential_run};
ghost use Rattle.pm_plan.specs.Plans.{IsValid};
ghost use Rattle.pm_place.specs.Placings.{IsPlacement, cost, parts, CostsLeast, PrefersLesser};
ghost use Rattle.pm_place.specs.declared.placing.PlaceFault.TheVariants as fault;

use crate::best::best_of_all;
use crate::distances::distances;
use crate::tally::tally;
use crate::{PlaceFault, Placing};
use pm_plan::Plan;
use pm_plan::laws::limits_are_kept;
use std::alloc::Global;

/// The placement of the variables that costs least: each read and each write of the sequential run costs the edges of
/// the tree between its agent's process and its variable's. A `scan` costs nothing. Of the processes at which a
/// variable costs the same, it is at the one with the least number.
///
/// It goes over the run once, and takes memory for a number for each variable and process.
///
/// # Errors
///
/// `BudgetSpent` exactly where the run has more steps than the budget, and want of memory.
pub fn place(alloc: Global, plan: &Plan, budget: u64) -> Result<Placing, PlaceFault>
    requires valid { IsValid plan.now }
    requires budget { budget ≤ 20000000 }
    ensures placement { IfOk result (λ p. IsPlacement plan.now p.at) }
    ensures costs { IfOk result (λ p. p.costs ≡ parts plan.now p.at) }
    ensures total { IfOk result (λ p. p.total ≡ sum p.costs) }
    ensures cost { IfOk result (λ p. p.total ≡ cost plan.now p.at) }
    ensures least { IfOk result (λ p. CostsLeast plan.now p.total) }
    ensures ties { IfOk result (λ p. PrefersLesser plan.now p) }
    ensures within { IfOk result (λ _. length (sequential_run plan.now) ≤ budget) }
    ensures spent { result ≡ Err fault.BudgetSpent → budget < length (sequential_run plan.now) }
{
    limits_are_kept(plan);
    let rows = tally(alloc, plan, budget)?;
    let distances = distances(alloc, plan)?;
    Ok(best_of_all(alloc, rows.as_slice(), distances.as_slice())?)
}
