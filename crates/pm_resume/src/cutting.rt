ghost use Rattle.std.specs.Prelude.{◌≡◌, ◌⊎◌, ◌<◌, ◌^◌, Ok, Err, length, IfOk, IfErr};
ghost use Rattle.pm_plan.specs.Plans.{IsValid};
ghost use Rattle.pm_model.specs.Runs.{sequential_run};
ghost use Rattle.pm_resume.specs.Cuts.{cut_of, first_retired, run_from, stuck};
ghost use Rattle.pm_resume.specs.declared.CutFault.TheVariants as fault;

use crate::CutFault;
use crate::advance::advance;
use crate::resumed::resumed;
use pm_plan::Plan;
use pm_seq::Seq;
use std::alloc::Global;

/// The last time that a plan may name.
const LAST_TIME: u64 = 1_000_000_000_000;

/// The first of these agents that is retired.
fn first_retired(seq: &Seq<'_>, count: u32) -> Option<u32>
    requires { count ≡ length seq.now.state.agents }
    ensures { result ≡ first_retired seq.now.state }
{
    for agent in 0..count {
        if seq.next_time(agent).is_none() {
            return Some(agent);
        }
    }
    None
}

/// The first retired agent, where a plan may name no time past the horizon.
fn stuck(plan: &Plan, seq: &Seq<'_>) -> Option<u32>
    requires few { length plan.now.agents < 2 ^ 32 }
    requires count { length seq.now.state.agents ≡ length plan.now.agents }
    ensures { result ≡ stuck plan.now seq.now.state }
{
    if plan.horizon == LAST_TIME {
        first_retired(seq, plan.agents.len() as u32)
    } else {
        None
    }
}

/// The plan that goes on from a time: the given one, with the values, the registers and the next times that its
/// sequential run has come to before its first step at that time or later. A retired agent starts past the horizon.
/// The run of the new plan is the rest of the given plan's run. The steps before the time are done, at most `budget` of
/// them, and none of their entries is kept.
pub fn cut(alloc: Global, plan: &Plan, from: u64, budget: u64) -> Result<Plan, CutFault>
    requires { IsValid plan.now }
    ensures made { IfOk result (λ p. cut_of plan.now from budget ≡ Ok p) }
    ensures goes_on { IfOk result (λ p. sequential_run p ≡ run_from plan.now from) }
    ensures valid { IfOk result IsValid }
    ensures refused { IfErr result (λ f. (f ≡ fault.Memory) ⊎ (cut_of plan.now from budget ≡ Err f)) }
{
    let mut seq = Seq::new(alloc, plan)?;
    if !advance(alloc, &mut seq, from, budget)? {
        return Err(CutFault::BudgetSpent);
    }
    match stuck(plan, &seq) {
        Some(agent) => Err(CutFault::Retired { agent }),
        None => {
            let plan = resumed(alloc, plan, &seq)?;
            Ok(plan)
        }
    }
}
