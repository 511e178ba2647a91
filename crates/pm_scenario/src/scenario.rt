ghost use Rattle.std.specs.Prelude.{◌≡◌, ◌<◌, ◌^◌, ◌⊎◌, length, true, Ok, Err, IfOk, IfErr};
ghost use Rattle.pm_plan.specs.Plans.{all_vars, rules_fit, IsValid};
ghost use Rattle.pm_plan.specs.Plans as plans;
ghost use Rattle.pm_scenario.specs.Forms.{Gives};
ghost use Rattle.pm_scenario.specs.Scenarios.{plan_or, plan_of};
ghost use Rattle.pm_scenario.specs.declared.fault.ScenarioFault.TheVariants as fault;

use crate::ScenarioFault;
use crate::document::draft_of;
use crate::rules::parts_of;
use pm_plan::{Plan, PlanFault, PlanParts};
use std::alloc::Global;

fn plan_of_parts(alloc: Global, parts: PlanParts) -> Result<Plan, ScenarioFault>
    requires few { length (all_vars parts.classes) < 2 ^ 32 }
    requires fit { rules_fit parts.classes parts.agents ≡ true }
    ensures plan { Gives result (plan_or (plans.plan_of parts)) }
    ensures valid { IfOk result IsValid }
{
    match Plan::make(alloc, parts) {
        Ok(plan) => Ok(plan),
        Err(PlanFault::Memory) => Err(ScenarioFault::Memory),
        Err(fault) => Err(ScenarioFault::Plan { fault }),
    }
}

/// Reads a scenario: the plan of its text, or the first refusal of it: of the document, then of the agents' rules in
/// order, then of the plan. Names, and the texts of rules, are copied once more than the plan holds them.
#[tactic(auto, unfolding(crate::specs::Scenarios::plan_of))]
pub fn read(alloc: Global, bytes: &[u8]) -> Result<Plan, ScenarioFault>
    requires few { length bytes.now < 2 ^ 32 }
    ensures plan { IfOk result (λ plan. plan_of bytes.now ≡ Ok plan) }
    ensures valid { IfOk result IsValid }
    ensures refused { IfErr result (λ f. (f ≡ fault.Memory) ⊎ (plan_of bytes.now ≡ Err f)) }
{
    let draft = draft_of(alloc, bytes)?;
    let parts = parts_of(alloc, draft)?;
    plan_of_parts(alloc, parts)
}
