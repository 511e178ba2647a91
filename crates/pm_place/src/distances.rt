// How many edges are between each two communication processes.
ghost use Rattle.std.specs.Prelude.{◌≡◌, ◌<◌, IfOk, length};
ghost use Rattle.pm_plan.specs.Plans.{IsValid};
ghost use Rattle.pm_place.specs.Tallies.{distances, distances_to};

use pm_base::{List, Memory};
use pm_plan::Plan;
use pm_plan::laws::limits_are_kept;
use std::alloc::Global;

/// The edges from each process to that one.
fn distances_to(alloc: Global, plan: &Plan, clp: u32) -> Result<List<u32>, Memory>
    requires valid { IsValid plan.now }
    requires clp { clp < length plan.now.clps }
    ensures { IfOk result (λ row. row ≡ distances_to plan.now clp) }
{
    limits_are_kept(plan);
    let mut row = List::new(alloc);
    for home in 0..plan.clps.len() as u32 {
        row.push(plan.path_len(home, clp))?;
    }
    Ok(row)
}

/// The edges to each process, from each process.
pub fn distances(alloc: Global, plan: &Plan) -> Result<List<List<u32>>, Memory>
    requires { IsValid plan.now }
    ensures { IfOk result (λ rows. rows ≡ distances plan.now) }
{
    limits_are_kept(plan);
    let mut rows = List::new(alloc);
    for clp in 0..plan.clps.len() as u32 {
        rows.push(distances_to(alloc, plan, clp)?)?;
    }
    Ok(rows)
}
