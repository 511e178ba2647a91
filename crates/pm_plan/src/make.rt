ghost use Rattle.std.specs.Prelude.{◌≡◌, ◌<◌, ◌^◌, ◌⊎◌, length, true, Ok, Err, IfOk, IfErr};
ghost use Rattle.pm_plan.specs.Plans.{all_vars, plan_of, rules_fit, IsValid};
ghost use Rattle.pm_plan.specs.declared.fault.PlanFault.TheVariants as fault;

use crate::check::{check, check_counts, count_vars};
use crate::rows::numbered;
use crate::{Plan, PlanFault, PlanParts};
use std::alloc::Global;

impl Plan {
    /// The plan of these parts. Its rows have the parts' names, times, values and rules, and stand in their order.
    /// Each rule fits the layout that the classes give (`Program::fits` is the test).
    /// The refusals are taken in the order of `PlanFault`, and for each of them the kinds in the order of `Kind`.
    #[tactic(auto, unfolding(crate::specs::Plans::plan_of, crate::specs::Plans::refusal))]
    pub fn make(alloc: Global, parts: PlanParts) -> Result<Plan, PlanFault>
        requires few { length (all_vars parts.classes) < 2 ^ 32 }
        requires rules { rules_fit parts.classes parts.agents ≡ true }
        ensures made { IfOk result (λ plan. plan_of parts ≡ Ok plan) }
        ensures valid { IfOk result IsValid }
        ensures refused { IfErr result (λ f. (f ≡ fault.Memory) ⊎ (plan_of parts ≡ Err f)) }
    {
        let vars = count_vars(parts.classes.as_slice());
        check_counts(
            parts.clps.len(),
            parts.classes.len(),
            vars,
            parts.agents.len(),
        )?;
        let plan = numbered(alloc, parts)?;
        check(alloc, &plan)?;
        Ok(plan)
    }
}
