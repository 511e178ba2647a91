ghost use Rattle.std.specs.Prelude.{◌≡◌, ◌+◌, ◌<◌, ◌^◌, Some, length, slice_get, unwrap_or, option_map, IfOk};
ghost use Rattle.pm_base.specs.Windows.{IsPair};
ghost use Rattle.pm_plan.specs.Limits.{IsWithinLimits};
ghost use Rattle.pm_plan.specs.Plans.{HavePairs};
ghost use Rattle.pm_resume.specs.Cuts.{pairwise, resumed, with_regs, with_start, with_state, with_value};

use crate::copies::{copy_clps, copy_layout, copy_names};
use pm_base::{List, Memory, Program, RegRow, Value};
use pm_plan::{AgentRow, Plan, VarRow};
use pm_seq::Seq;
use std::alloc::Global;

/// A variable that begins with that value.
fn with_value(alloc: Global, row: &VarRow, value: Value) -> Result<VarRow, Memory>
    ensures row { IfOk result (λ r. r ≡ with_value row.now value) }
    ensures pair { IfOk result (λ r. IsPair r.value) }
{
    Ok(VarRow {
        name: row.name.copy(alloc)?,
        at: row.at,
        value,
    })
}

/// The variables, which begin with those values.
fn with_values(alloc: Global, rows: &[VarRow], values: &[Value]) -> Result<List<VarRow>, Memory>
    ensures rows { IfOk result (λ all. all ≡ pairwise with_value rows.now values.now) }
    ensures pairs { IfOk result HavePairs }
{
    let mut all = List::new(alloc);
    for (row, value) in rows.iter().zip(values) {
        all.push(with_value(alloc, row, *value)?)?;
    }
    Ok(all)
}

/// The registers, which begin with those numbers.
fn with_starts(alloc: Global, rows: &[RegRow], starts: &[i64]) -> Result<List<RegRow>, Memory>
    ensures { IfOk result (λ all. all ≡ pairwise with_start rows.now starts.now) }
{
    let mut all = List::new(alloc);
    for (row, start) in rows.iter().zip(starts) {
        all.push(RegRow {
            name: row.name.copy(alloc)?,
            start: *start,
        })?;
    }
    Ok(all)
}

/// The rule, with registers that begin with those numbers.
fn with_regs(alloc: Global, program: &Program, regs: &[i64]) -> Result<Program, Memory>
    ensures { IfOk result (λ p. p ≡ with_regs program.now regs.now) }
{
    let Program { senses, body, .. } = program.copy(alloc)?;
    Ok(Program {
        regs: with_starts(alloc, program.regs.as_slice(), regs)?,
        senses,
        body,
    })
}

/// That time, or the one past the horizon.
fn start_of(plan: &Plan, next: Option<u64>) -> u64
    requires { IsWithinLimits plan.now }
    ensures { result ≡ unwrap_or next (plan.now.horizon + 1) }
{
    match next {
        Some(time) => time,
        None => plan.horizon + 1,
    }
}

/// An agent that starts with what the run has come to.
fn with_state(
    alloc: Global,
    plan: &Plan,
    row: &AgentRow,
    seq: &Seq<'_>,
    agent: u32,
) -> Result<AgentRow, Memory>
    requires limits { IsWithinLimits plan.now }
    requires there { agent < length seq.now.state.agents }
    ensures { IfOk result (λ r. Some r ≡
        option_map (with_state plan.now row.now) (slice_get seq.now.state.agents agent)) }
{
    Ok(AgentRow {
        name: row.name.copy(alloc)?,
        home: row.home,
        start: start_of(plan, seq.next_time(agent)),
        program: with_regs(alloc, &row.program, seq.regs(agent).as_slice())?,
    })
}

/// The agents, which start with what the run has come to.
fn with_states(alloc: Global, plan: &Plan, seq: &Seq<'_>) -> Result<List<AgentRow>, Memory>
    requires limits { IsWithinLimits plan.now }
    requires count { length seq.now.state.agents ≡ length plan.now.agents }
    ensures { IfOk result (λ all. all ≡ pairwise (with_state plan.now) plan.now.agents seq.now.state.agents) }
{
    let mut all = List::new(alloc);
    for (number, row) in plan.agents.as_slice().iter().enumerate() {
        all.push(with_state(alloc, plan, row, seq, number as u32)?)?;
    }
    Ok(all)
}

/// The plan that starts in the state that the run has come to.
#[tactic(auto, unfolding(crate::specs::Cuts::resumed))]
pub fn resumed(alloc: Global, plan: &Plan, seq: &Seq<'_>) -> Result<Plan, Memory>
    requires limits { IsWithinLimits plan.now }
    requires count { length seq.now.state.agents ≡ length plan.now.agents }
    ensures made { IfOk result (λ p. p ≡ resumed plan.now seq.now.state) }
    ensures pairs { IfOk result (λ p. HavePairs p.vars) }
{
    Ok(Plan {
        horizon: plan.horizon,
        move_after: plan.move_after,
        clps: copy_clps(alloc, plan.clps.as_slice())?,
        layout: copy_layout(alloc, &plan.layout)?,
        classes: copy_names(alloc, plan.classes.as_slice())?,
        vars: with_values(alloc, plan.vars.as_slice(), seq.values().as_slice())?,
        agents: with_states(alloc, plan, seq)?,
    })
}
