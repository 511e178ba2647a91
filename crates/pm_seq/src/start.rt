ghost use Rattle.std.specs.Prelude.{◌≡◌, IfOk, map};
ghost use Rattle.pm_base.specs.declared.program.RegRow.{RegRow};
ghost use Rattle.pm_plan.specs.declared.plan.VarRow.{VarRow};
ghost use Rattle.pm_model.specs.Runs.{due, first_agent, sequential_start};

use pm_base::{List, Memory, RegRow, Value};
use pm_model::{AgentState, State};
use pm_plan::{AgentRow, Plan, VarRow};
use std::alloc::Global;

/// That time, unless it is past the horizon.
pub fn due(plan: &Plan, time: u64) -> Option<u64>
    ensures { result ≡ due plan.now time }
{
    if time <= plan.horizon {
        Some(time)
    } else {
        None
    }
}

fn first_regs(alloc: Global, rows: &[RegRow]) -> Result<List<i64>, Memory>
    ensures { IfOk result (λ l. l ≡ map (λ (r : RegRow). r.start) rows.now) }
{
    let mut all = List::new(alloc);
    for row in rows {
        all.push(row.start)?;
    }
    Ok(all)
}

fn first_values(alloc: Global, rows: &[VarRow]) -> Result<List<Value>, Memory>
    ensures { IfOk result (λ l. l ≡ map (λ (v : VarRow). v.value) rows.now) }
{
    let mut all = List::new(alloc);
    for row in rows {
        all.push(row.value)?;
    }
    Ok(all)
}

fn first_agent(alloc: Global, plan: &Plan, row: &AgentRow) -> Result<AgentState, Memory>
    ensures { IfOk result (λ a. a ≡ first_agent plan.now row.now) }
{
    Ok(AgentState {
        regs: first_regs(alloc, row.program.regs.as_slice())?,
        next: due(plan, row.start),
    })
}

fn first_agents(alloc: Global, plan: &Plan) -> Result<List<AgentState>, Memory>
    ensures { IfOk result (λ all. all ≡ map (first_agent plan.now) plan.now.agents) }
{
    let mut all = List::new(alloc);
    for row in plan.agents.as_slice() {
        all.push(first_agent(alloc, plan, row)?)?;
    }
    Ok(all)
}

/// The state before the first turn.
pub fn sequential_start(alloc: Global, plan: &Plan) -> Result<State, Memory>
    ensures { IfOk result (λ s. s ≡ sequential_start plan.now) }
{
    Ok(State {
        values: first_values(alloc, plan.vars.as_slice())?,
        agents: first_agents(alloc, plan)?,
    })
}
