//! The processes of a plan at first.
ghost use Rattle.std.specs.Prelude.{◌≡◌, ◌<◌, ◌++◌, ◌∷◌, [], length, map, IfOk, OnOk};
ghost use Rattle.pm_plan.specs.Plans.{IsValid};
ghost use Rattle.pm_plan.specs.declared.plan.VarRow.{VarRow as TheVar};
ghost use Rattle.pm_sim.specs.Worlds.{clps_of, first_way};
ghost use Rattle.pm_core.specs.Firsts.{first_alp, first_alps, first_clp, first_clps, first_processes, first_wakes};
ghost use Rattle.pm_core.specs.declared.process.Process.TheVariants as process;
ghost use Rattle.pm_core.specs.Mails.{opened_agents, wake_at};

use crate::posts::open_agent;
use crate::process::Process;
use crate::tree::{ports, to_agents};
use pm_alp::{Alp, AlpParts};
use pm_base::{Layout, List, Memory, Value};
use pm_clp::{Clp, ClpParts};
use pm_mail::Mail;
use pm_message::Message;
use pm_plan::{AgentRow, Plan, VarRow};
use pm_routes::Way;
use std::alloc::Global;

// Where a communication process looks for a variable at first.
fn first_way(plan: &Plan, clp: u32, row: &VarRow) -> Way
    requires valid { IsValid plan.now }
    requires clp { clp < length plan.now.clps }
    requires at { row.now.at < length plan.now.clps }
    ensures { result ≡ first_way plan.now clp row.now }
{
    if row.at == clp {
        Way::Here
    } else {
        Way::Port(plan.hop(clp, row.at))
    }
}

// Where it looks for each variable at first.
fn first_ways(alloc: Global, plan: &Plan, clp: u32) -> Result<List<Way>, Memory>
    requires valid { IsValid plan.now }
    requires clp { clp < length plan.now.clps }
    ensures { IfOk result (λ ways. ways ≡ map (first_way plan.now clp) plan.now.vars) }
{
    let mut ways = List::new(alloc);
    for row in plan.vars.as_slice() {
        ways.push(first_way(plan, clp, row))?;
    }
    Ok(ways)
}

// The variables' first values.
fn first_values(alloc: Global, plan: &Plan) -> Result<List<Value>, Memory>
    ensures { IfOk result (λ values. values ≡ map (λ (v : TheVar). v.value) plan.now.vars) }
{
    let mut values = List::new(alloc);
    for row in plan.vars.as_slice() {
        values.push(row.value)?;
    }
    Ok(values)
}

// The plan's layout once more.
fn layout(alloc: Global, plan: &Plan) -> Result<Layout, Memory>
    ensures { IfOk result (λ l. l ≡ plan.now.layout) }
{
    let mut classes = List::new(alloc);
    for row in plan.layout.classes.as_slice() {
        classes.push(*row)?;
    }
    Ok(Layout { classes })
}

// A communication process at first.
fn first_clp(alloc: Global, plan: &Plan, clp: u32) -> Result<Clp, Memory>
    requires valid { IsValid plan.now }
    requires clp { clp < length plan.now.clps }
    ensures { IfOk result (λ c. c ≡ first_clp plan.now clp) }
{
    let parts = ClpParts {
        ports: ports(alloc, plan, clp)?,
        to_agents: to_agents(alloc, plan, clp)?,
        ways: first_ways(alloc, plan, clp)?,
        layout: layout(alloc, plan)?,
        values: first_values(alloc, plan)?,
        move_after: plan.move_after,
    };
    Clp::first(alloc, parts)
}

/// The communication processes at first.
pub fn first_clps(alloc: Global, plan: &Plan) -> Result<Vec<Clp>, Memory>
    requires { IsValid plan.now }
    ensures { IfOk result (λ all. all.items ≡ first_clps plan.now 0 (clps_of plan.now)) }
{
    let mut all = Vec::new(alloc);
    for clp in 0..plan.clps.len() {
        all.push(first_clp(alloc, plan, clp as u32)?)?;
    }
    Ok(all)
}

/// Appends an agent's process at first; the answer is its first Wake, where it has one.
pub fn add_alp<'a>(
    alloc: Global,
    plan: &'a Plan,
    agent: u32,
    row: &'a AgentRow,
    alps: &mut Vec<Alp<'a>>,
) -> Result<Option<Message>, Memory>
    requires { IsValid plan.now }
    ensures process { OnOk result (alps.new.items ≡ alps.old.items ++ first_alp plan.now agent row.now ∷ []) }
    ensures wake { IfOk result (λ w. w ≡ wake_at (first_alp plan.now agent row.now).agent.awaited) }
{
    let parts = AlpParts {
        agent,
        start: row.start,
        horizon: plan.horizon,
        program: &row.program,
        layout: &plan.layout,
    };
    let (alp, wake) = Alp::first(alloc, parts)?;
    alps.push(alp)?;
    Ok(wake)
}

/// The agents' processes at first, whose links are opened, with the agents' first Wakes.
pub fn first_alps<'a>(
    alloc: Global,
    plan: &'a Plan,
    mail: &mut Mail,
) -> Result<Vec<Alp<'a>>, Memory>
    requires { IsValid plan.now }
    ensures processes { IfOk result (λ all. all.items ≡ first_alps plan.now 0 plan.now.agents) }
    ensures mail { OnOk result (mail.new ≡ opened_agents plan.now 0 plan.now.agents mail.old) }
{
    let mut all = Vec::new(alloc);
    for (i, row) in plan.agents.as_slice().iter().enumerate() {
        let agent = i as u32;
        let wake = add_alp(alloc, plan, agent, row, &mut all)?;
        open_agent(alloc, mail, plan, agent, wake)?;
    }
    Ok(all)
}

// Agents' processes at first, with their first Wakes.
fn alps_and_wakes<'a>(
    alloc: Global,
    plan: &'a Plan,
    wakes: &mut List<Option<Message>>,
) -> Result<Vec<Alp<'a>>, Memory>
    requires { IsValid plan.now }
    ensures processes { IfOk result (λ all. all.items ≡ first_alps plan.now 0 plan.now.agents) }
    ensures wakes { OnOk result (wakes.new ≡
        wakes.old ++ first_wakes (first_alps plan.now 0 plan.now.agents)) }
{
    let mut all = Vec::new(alloc);
    for (i, row) in plan.agents.as_slice().iter().enumerate() {
        let wake = add_alp(alloc, plan, i as u32, row, &mut all)?;
        wakes.push(wake)?;
    }
    Ok(all)
}

fn add_clps<'a>(all: &mut List<Process<'a>>, clps: Vec<Clp>) -> Result<(), Memory>
    ensures { OnOk result (all.new ≡ all.old ++ map process.Clp clps.items) }
{
    for clp in clps {
        all.push(Process::Clp(clp))?;
    }
    Ok(())
}

fn add_alps<'a>(all: &mut List<Process<'a>>, alps: Vec<Alp<'a>>) -> Result<(), Memory>
    ensures { OnOk result (all.new ≡ all.old ++ map process.Alp alps.entry.items) }
{
    for alp in alps {
        all.push(Process::Alp(alp))?;
    }
    Ok(())
}

/// All processes of a plan at first, in order of number, and the agents' first Wakes: none exactly where an agent starts
/// past the horizon.
pub fn processes<'a>(
    alloc: Global,
    plan: &'a Plan,
) -> Result<(List<Process<'a>>, List<Option<Message>>), Memory>
    requires { IsValid plan.now }
    ensures processes { IfOk result (λ r. r.0 ≡ first_processes plan.now) }
    ensures wakes { IfOk result (λ r. r.1 ≡ first_wakes (first_alps plan.now 0 plan.now.agents)) }
{
    let mut all = List::new(alloc);
    let mut wakes = List::new(alloc);
    add_clps(&mut all, first_clps(alloc, plan)?)?;
    let alps = alps_and_wakes(alloc, plan, &mut wakes)?;
    add_alps(&mut all, alps)?;
    Ok((all, wakes))
}
