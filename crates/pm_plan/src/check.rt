ghost use Rattle.std.specs.Prelude.{◌≡◌, ◌<◌, ◌^◌, ◌⊎◌, length, map, Result, Ok, Err, option_map};
ghost use Rattle.std.specs.List.{list_any};
ghost use Rattle.pm_plan.specs.Numbers.{first_wrong, first_repeat};
ghost use Rattle.pm_plan.specs.Plans.{all_vars, parents, is_past, starts_late, count_refusal, is_late, refused_if};
ghost use Rattle.pm_plan.specs.Plans.{of_names, first_off_tree, first_nowhere, place_refusal, later_refusal, passed};
ghost use Rattle.pm_plan.specs.Plans.{IsFew};
ghost use Rattle.pm_plan.specs.declared.fault.PlanFault.TheVariants as fault;
ghost use Rattle.pm_plan.specs.declared.plan.Kind.TheVariants as kind;

use crate::named::first_wrong;
use crate::numbers::first_repeat;
use crate::tree::first_off_tree;
use crate::{AgentRow, ClassPart, Kind, Plan, PlanFault, VarRow};
use std::alloc::Global;

const MOST_CLPS: usize = 64;

const MOST_CLASSES: usize = 64;

const MOST_VARS: usize = 4096;

const MOST_AGENTS: usize = 1024;

const LAST_TIME: u64 = 1_000_000_000_000;

/// How many variables these classes have in all.
pub fn count_vars(classes: &[ClassPart]) -> usize
    requires { length (all_vars classes.now) < 2 ^ 32 }
    ensures { result ≡ length (all_vars classes.now) }
{
    let mut count = 0;
    for class in classes {
        count += class.vars.len();
    }
    count
}

/// Refuses too few or too many of a kind.
pub fn check_counts(
    clps: usize,
    classes: usize,
    vars: usize,
    agents: usize,
) -> Result<(), PlanFault>
    ensures { result ≡ passed (count_refusal clps classes vars agents) }
{
    if clps < 1 || clps > MOST_CLPS {
        return Err(PlanFault::Limit { kind: Kind::Clp });
    }
    if classes > MOST_CLASSES {
        return Err(PlanFault::Limit { kind: Kind::Class });
    }
    if vars > MOST_VARS {
        return Err(PlanFault::Limit { kind: Kind::Var });
    }
    if agents > MOST_AGENTS {
        return Err(PlanFault::Limit { kind: Kind::Agent });
    }
    Ok(())
}

fn is_past(time: u64) -> bool
    ensures { result ≡ is_past time }
{
    time > LAST_TIME
}

fn starts_late(agents: &[AgentRow]) -> bool
    ensures { result ≡ list_any starts_late agents.now }
{
    agents.iter().any(|a| is_past(a.start))
}

fn is_late(plan: &Plan) -> bool
    ensures { result ≡ is_late plan.now }
{
    is_past(plan.horizon) || starts_late(plan.agents.as_slice())
}

/// Refuses a horizon or a start that is too late.
fn check_times(plan: &Plan) -> Result<(), PlanFault>
    ensures { result ≡ passed (refused_if (is_late plan.now) (fault.Limit kind.Time)) }
{
    if is_late(plan) {
        return Err(PlanFault::Limit { kind: Kind::Time });
    }
    Ok(())
}

/// Refuses what may not stand as a name.
fn check_names(plan: &Plan) -> Result<(), PlanFault>
    requires { IsFew plan.now }
    ensures { result ≡ passed (of_names fault.Name first_wrong plan.now) }
{
    if let Some(index) = first_wrong(plan.clps.as_slice()) {
        return Err(PlanFault::Name {
            kind: Kind::Clp,
            index,
        });
    }
    if let Some(index) = first_wrong(plan.classes.as_slice()) {
        return Err(PlanFault::Name {
            kind: Kind::Class,
            index,
        });
    }
    if let Some(index) = first_wrong(plan.vars.as_slice()) {
        return Err(PlanFault::Name {
            kind: Kind::Var,
            index,
        });
    }
    if let Some(index) = first_wrong(plan.agents.as_slice()) {
        return Err(PlanFault::Name {
            kind: Kind::Agent,
            index,
        });
    }
    Ok(())
}

/// Refuses a name that stands twice in a kind.
fn check_repeats(alloc: Global, plan: &Plan) -> Result<(), PlanFault>
    requires { IsFew plan.now }
    ensures { (result ≡ Err fault.Memory) ⊎ (result ≡ passed (of_names fault.Twice first_repeat plan.now)) }
{
    if let Some(index) = first_repeat(alloc, plan.clps.as_slice())? {
        return Err(PlanFault::Twice {
            kind: Kind::Clp,
            index,
        });
    }
    if let Some(index) = first_repeat(alloc, plan.classes.as_slice())? {
        return Err(PlanFault::Twice {
            kind: Kind::Class,
            index,
        });
    }
    if let Some(index) = first_repeat(alloc, plan.vars.as_slice())? {
        return Err(PlanFault::Twice {
            kind: Kind::Var,
            index,
        });
    }
    if let Some(index) = first_repeat(alloc, plan.agents.as_slice())? {
        return Err(PlanFault::Twice {
            kind: Kind::Agent,
            index,
        });
    }
    Ok(())
}

/// Refuses processes that are no tree.
fn check_tree(plan: &Plan) -> Result<(), PlanFault>
    requires { IsFew plan.now }
    ensures { result ≡ passed (option_map fault.Tree (first_off_tree (parents plan.now.clps))) }
{
    match first_off_tree(plan.clps.as_slice()) {
        Some(clp) => Err(PlanFault::Tree { clp }),
        None => Ok(()),
    }
}

fn first_var_nowhere(clps: usize, vars: &[VarRow]) -> Option<u32>
    requires { length vars.now < 2 ^ 32 }
    ensures { result ≡ first_nowhere clps (map (λ v. v.at) vars.now) }
{
    for (i, var) in vars.iter().enumerate() {
        if var.at as usize >= clps {
            return Some(i as u32);
        }
    }
    None
}

fn first_agent_nowhere(clps: usize, agents: &[AgentRow]) -> Option<u32>
    requires { length agents.now < 2 ^ 32 }
    ensures { result ≡ first_nowhere clps (map (λ a. a.home) agents.now) }
{
    for (i, agent) in agents.iter().enumerate() {
        if agent.home as usize >= clps {
            return Some(i as u32);
        }
    }
    None
}

/// Refuses a variable or an agent that is at no process.
fn check_places(plan: &Plan) -> Result<(), PlanFault>
    requires { IsFew plan.now }
    ensures { result ≡ passed (place_refusal plan.now) }
{
    if let Some(index) = first_var_nowhere(plan.clps.len(), plan.vars.as_slice()) {
        return Err(PlanFault::Place {
            kind: Kind::Var,
            index,
        });
    }
    if let Some(index) = first_agent_nowhere(plan.clps.len(), plan.agents.as_slice()) {
        return Err(PlanFault::Place {
            kind: Kind::Agent,
            index,
        });
    }
    Ok(())
}

/// Refuses a plan for all but the numbers of its kinds.
#[tactic(auto, unfolding(crate::specs::Plans::later_refusal))]
pub fn check(alloc: Global, plan: &Plan) -> Result<(), PlanFault>
    requires { IsFew plan.now }
    ensures { (result ≡ Err fault.Memory) ⊎ (result ≡ passed (later_refusal plan.now)) }
{
    check_times(plan)?;
    check_names(plan)?;
    check_repeats(alloc, plan)?;
    check_tree(plan)?;
    check_places(plan)
}
