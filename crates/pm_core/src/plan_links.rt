//! The links of a plan.

ghost use Rattle.std.specs.Prelude.{◌≡◌, ◌++◌, ◌+◌, ◌<◌, ◌^◌, length, IfOk, OnOk};
ghost use Rattle.pm_core.specs.Links.{links_to_agents, links_to_clps, homed_at, links, links_from, senders};
ghost use Rattle.pm_plan.specs.Limits.{IsWithinLimits};
ghost use Rattle.pm_sim.specs.Worlds.{clps_of};

use crate::tree::{add_if, ports};
use pm_base::{List, Memory};
use pm_plan::{AgentRow, Plan};
use std::alloc::Global;

// Appends the numbers of those agents whose home is that process; the first of them is process number `first`.
fn add_homed(
    clp: u32,
    first: u32,
    agents: &[AgentRow],
    numbers: &mut List<u32>,
) -> Result<(), Memory>
    requires { first + length agents.now < 2 ^ 32 }
    ensures { OnOk result (numbers.new ≡ numbers.old ++ homed_at clp first agents.now) }
{
    for (i, row) in agents.iter().enumerate() {
        add_if(row.home == clp, first + i as u32, numbers)?;
    }
    Ok(())
}

// Who sends to a communication process.
fn senders(alloc: Global, plan: &Plan, clp: u32) -> Result<List<u32>, Memory>
    requires { IsWithinLimits plan.now }
    ensures { IfOk result (λ found. found ≡ senders plan.now clp) }
{
    let mut found = ports(alloc, plan, clp)?;
    let first = plan.clps.len() as u32;
    add_homed(clp, first, plan.agents.as_slice(), &mut found)?;
    Ok(found)
}

// Appends the links to a process from these senders.
fn add_from(to: u32, from: &[u32], links: &mut List<(u32, u32)>) -> Result<(), Memory>
    ensures { OnOk result (links.new ≡ links.old ++ links_from to from.now) }
{
    for sender in from {
        links.push((to, *sender))?;
    }
    Ok(())
}

// The links to all communication processes.
fn links_to_clps(alloc: Global, plan: &Plan) -> Result<List<(u32, u32)>, Memory>
    requires { IsWithinLimits plan.now }
    ensures { IfOk result (λ found. found ≡ links_to_clps plan.now 0 (clps_of plan.now)) }
{
    let mut found = List::new(alloc);
    for clp in 0..plan.clps.len() {
        let clp = clp as u32;
        let from = senders(alloc, plan, clp)?;
        add_from(clp, from.as_slice(), &mut found)?;
    }
    Ok(found)
}

// Appends the links to these agents; the first of them is process number `first`.
fn add_agents(first: u32, agents: &[AgentRow], links: &mut List<(u32, u32)>) -> Result<(), Memory>
    requires { first + length agents.now < 2 ^ 32 }
    ensures { OnOk result (links.new ≡ links.old ++ links_to_agents first agents.now) }
{
    for (i, row) in agents.iter().enumerate() {
        let number = first + i as u32;
        links.push((number, row.home))?;
        links.push((number, number))?;
    }
    Ok(())
}

/// All links of a plan as (to, from), ascending: communication processes are numbered first, then the agents. Each agent
/// is linked to its home and back, and to itself; neighbours in the tree are linked both ways.
pub fn links(alloc: Global, plan: &Plan) -> Result<List<(u32, u32)>, Memory>
    requires { IsWithinLimits plan.now }
    ensures { IfOk result (λ found. found ≡ links plan.now) }
{
    let mut found = links_to_clps(alloc, plan)?;
    let first = plan.clps.len() as u32;
    add_agents(first, plan.agents.as_slice(), &mut found)?;
    Ok(found)
}
