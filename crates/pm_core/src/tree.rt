//! What the tree of a plan gives each communication process.

ghost use Rattle.std.specs.Prelude.{◌≡◌, ◌<◌, ◌++◌, ◌∷◌, [], if◌then◌else◌, length, IfOk, OnOk};
ghost use Rattle.pm_plan.specs.Limits.{IsWithinLimits};
ghost use Rattle.pm_plan.specs.Plans.{IsValid, parents};
ghost use Rattle.pm_plan.specs.Trees.{edge, is_this, parent};
ghost use Rattle.pm_sim.specs.Worlds.{home, ports, to_agents, towards};

use pm_base::{List, Memory};
use pm_plan::Plan;
use std::alloc::Global;

// Whether the second process is the one above the first.
fn is_above(plan: &Plan, clp: u32, above: u32) -> bool
    ensures { result ≡ is_this above (parent (parents plan.now.clps) clp) }
{
    match plan.clps.get(clp as usize) {
        Some(row) => row.parent == Some(above),
        None => false,
    }
}

// Whether two processes are neighbours in the tree.
fn is_edge(plan: &Plan, one: u32, other: u32) -> bool
    ensures { result ≡ edge (parents plan.now.clps) one other }
{
    is_above(plan, one, other) || is_above(plan, other, one)
}

/// Appends a number, where it is to be there.
pub fn add_if(is_there: bool, number: u32, numbers: &mut List<u32>) -> Result<(), Memory>
    ensures { OnOk result (numbers.new ≡ numbers.old ++ (if is_there then number ∷ [] else [])) }
{
    if is_there {
        numbers.push(number)
    } else {
        Ok(())
    }
}

/// The neighbours of a communication process in the tree, ascending.
pub fn ports(alloc: Global, plan: &Plan, clp: u32) -> Result<List<u32>, Memory>
    requires { IsWithinLimits plan.now }
    ensures { IfOk result (λ found. found ≡ ports plan.now clp) }
{
    let mut found = List::new(alloc);
    for other in 0..plan.clps.len() {
        let other = other as u32;
        add_if(is_edge(plan, clp, other), other, &mut found)?;
    }
    Ok(found)
}

// The process to which one sends what is for the agent of that number, whose home is there.
fn towards(plan: &Plan, clp: u32, agent: u32, home: u32) -> u32
    requires valid { IsValid plan.now }
    requires clp { clp < length plan.now.clps }
    requires agent { agent < length plan.now.agents }
    requires home { home < length plan.now.clps }
    ensures { result ≡ towards plan.now clp agent home }
{
    if clp == home {
        plan.clps.len() as u32 + agent
    } else {
        plan.hop(clp, home)
    }
}

/// For each agent, the process to which a communication process sends what is for it: the agent's own where its home is
/// here, else the neighbour on the way there.
pub fn to_agents(alloc: Global, plan: &Plan, clp: u32) -> Result<List<u32>, Memory>
    requires valid { IsValid plan.now }
    requires clp { clp < length plan.now.clps }
    ensures { IfOk result (λ found. found ≡ to_agents plan.now clp 0 plan.now.agents) }
{
    let mut found = List::new(alloc);
    for (agent, row) in plan.agents.as_slice().iter().enumerate() {
        found.push(towards(plan, clp, agent as u32, row.home))?;
    }
    Ok(found)
}

/// The home of an agent.
pub fn home(plan: &Plan, agent: u32) -> u32
    ensures { result ≡ home plan.now agent }
{
    match plan.agents.get(agent as usize) {
        Some(row) => row.home,
        None => 0,
    }
}
