ghost use Rattle.std.specs.Prelude.{◌≡◌, Ok, IfOk, OnOk};
ghost use Rattle.pm_gen.specs.Draws.{state_after};
ghost use Rattle.pm_gen.specs.Generated.{classes, generated};
ghost use Rattle.pm_plan.specs.Plans.{plan_of, IsValid};

use crate::draws::Draws;
use crate::parts::{cells, clps, marks};
use crate::rules::agents;
use pm_base::{List, Memory, Name};
use pm_plan::{ClassPart, Plan, PlanFault, PlanParts};
use std::alloc::Global;

/// The two classes with their variables.
#[tactic(auto, unfolding(crate::specs::Generated::classes))]
fn classes(alloc: Global, draws: &mut Draws) -> Result<List<ClassPart>, Memory>
    ensures parts { IfOk result (λ parts. parts ≡ classes draws.old.state) }
    ensures state { OnOk result (draws.new.state ≡ state_after draws.old.state 76) }
{
    let mut classes = List::new(alloc);
    classes.push(ClassPart {
        name: Name::make(alloc, "cell")?,
        vars: cells(alloc, draws)?,
    })?;
    classes.push(ClassPart {
        name: Name::make(alloc, "mark")?,
        vars: marks(alloc, draws)?,
    })?;
    Ok(classes)
}

/// The parts of the scenario of that number, drawn in their order.
fn generated(alloc: Global, number: u64) -> Result<PlanParts, Memory>
    ensures { IfOk result (λ parts. parts ≡ generated number) }
{
    let mut draws = Draws::new(number);
    let clps = clps(alloc, &mut draws)?;
    let classes = classes(alloc, &mut draws)?;
    let agents = agents(alloc, &mut draws)?;
    Ok(PlanParts {
        horizon: 60,
        move_after: 4,
        clps,
        classes,
        agents,
    })
}

/// The scenario of a number: five communication processes, 24 cells and four marks, and twelve agents with one of three
/// rules. Each number has one, whose plan is valid; nothing is refused but for want of memory.
pub fn scenario_of(alloc: Global, number: u64) -> Result<Plan, Memory>
    ensures plan { IfOk result (λ plan. plan_of (generated number) ≡ Ok plan) }
    ensures valid { IfOk result IsValid }
{
    let parts = generated(alloc, number)?;
    match Plan::make(alloc, parts) {
        Ok(plan) => Ok(plan),
        Err(fault) => match fault {
            PlanFault::Memory => Err(Memory),
            _ => unreachable!(),
        },
    }
}
