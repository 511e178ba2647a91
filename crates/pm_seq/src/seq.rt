ghost use Rattle.std.specs.Prelude.{◌≡◌, ◌∷◌, ◌↔◌, ◌<◌, true, Some, None, [], IfOk, OnErr, MatchOption};
ghost use Rattle.std.specs.Prelude.{length, slice_get, option_map, option_and_then};
ghost use Rattle.std.specs.List.{AllByRecursion};
ghost use Rattle.pm_plan.specs.Limits.{IsWithinLimits};
ghost use Rattle.pm_model.specs.Runs.{least_stamp, rest, sequential_run, sequential_start, sequential_turn};
ghost use Rattle.pm_model.specs.Runs.{IsRetired, IsTimely};
ghost use Rattle.pm_model.specs.declared.AgentState.{AgentState as TheAgent};
ghost use Rattle.pm_seq.specs.Queues.{IsRunning};

use crate::queue::{advance, least_stamp, queue_of};
use crate::start::{due, sequential_start};
use crate::turn::{change_all, deed, later};
use pm_base::{Act, Entry, List, Memory, Stamp, Value};
use pm_model::{AgentState, Deed, State};
use pm_plan::Plan;
use std::alloc::Global;
use std::collections::BTreeSet;
use std::marker::Model;

/// A sequential run of a plan, between two of its steps. Contracts see the plan and the state that the run has come
/// to. The agent that acts next is found by an ordered set of the agents' next stamps.
#[derive(Debug, Drop)]
pub struct Seq<'a> {
    plan: &'a Plan,
    state: State,
    due: BTreeSet<Stamp>,
}

impl<'a> Model for Seq<'a> {
    ghost use Rattle.pm_seq.specs.Progresses.{Progress};
    ghost use Rattle.pm_seq.specs.Queues.{IsRunning};
    ghost use Rattle.std.specs.Coded.{codes};
    ghost use Rattle.pm_base.specs.contracts.program.Expr as expr;
    ghost use Rattle.pm_base.specs.contracts.program.Stmt as stmt;

    ghost Value = { Progress };

    ghost coded = { Prim.hlevel (codes, expr.the_row.coded, stmt.the_row.coded) };

    ghost view = { λ s. record { plan = s.plan.now; state = s.state } };

    ghost invariant = { λ s. IsRunning s.plan.now s.state s.due };
}

/// Does the step of the agent that acts next.
fn turn(
    alloc: Global,
    plan: &Plan,
    state: &mut State,
    queue: &mut BTreeSet<Stamp>,
) -> Result<Option<Entry>, Memory>
    requires { IsRunning plan.now state.old queue.old }
    ensures moved { IfOk result (λ r. MatchOption r
        ((sequential_turn plan.now state.old ≡ None) × (state.new ≡ state.old))
        (λ e. sequential_turn plan.now state.old ≡ Some (record { entry = e; state = state.new }))) }
    ensures kept { OnErr result (state.new ≡ state.old) }
    ensures running { IsRunning plan.now state.new queue.new }
{
    let Some(stamp) = least_stamp(state.agents.as_slice(), queue) else {
        return Ok(None);
    };
    let Some(row) = plan.agents.get(stamp.agent as usize) else {
        return Ok(None);
    };
    let Some(agent) = state.agents.get(stamp.agent as usize) else {
        return Ok(None);
    };
    let done = deed(
        alloc,
        plan,
        state.values.as_slice(),
        stamp,
        row,
        &agent.regs,
    )?;
    let Deed { answers, act } = done;
    let Act { writes, regs, wait } = act;
    let next = due(plan, later(stamp.time, wait));
    advance(queue, stamp, next)?;
    change_all(&mut state.values, writes.as_slice());
    state
        .agents
        .set(stamp.agent as usize, AgentState { regs, next });
    Ok(Some(Entry {
        stamp,
        answers,
        writes,
    }))
}

impl<'a> Seq<'a> {
    /// The run before its first step.
    pub fn new(alloc: Global, plan: &'a Plan) -> Result<Seq<'a>, Memory>
        requires { IsWithinLimits plan.now }
        ensures start { IfOk result (λ s. (s.plan ≡ plan.now) × (s.state ≡ sequential_start plan.now)) }
        ensures left { IfOk result (λ s. rest s.plan s.state ≡ sequential_run plan.now) }
    {
        let state = sequential_start(alloc, plan)?;
        let due = queue_of(alloc, state.agents.as_slice())?;
        Ok(Seq { plan, state, due })
    }

    /// Does the next step and answers its entry; none exactly where all agents are retired. Nothing has changed then,
    /// nor after `Memory`.
    pub fn step(&mut self, alloc: Global) -> Result<Option<Entry>, Memory>
        ensures plan { self.new.plan ≡ self.old.plan }
        ensures moved { IfOk result (λ r. MatchOption r
            ((sequential_turn self.old.plan self.old.state ≡ None) × (self.new ≡ self.old))
            (λ e. sequential_turn self.old.plan self.old.state ≡
            Some (record { entry = e; state = self.new.state }))) }
        ensures kept { OnErr result (self.new ≡ self.old) }
        ensures retired { IfOk result (λ r. (r ≡ None) ↔ AllByRecursion IsRetired self.old.state.agents) }
        ensures left { IfOk result (λ r. MatchOption r (rest self.old.plan self.old.state ≡ [])
            (λ e. rest self.old.plan self.old.state ≡ e ∷ rest self.old.plan self.new.state)) }
    {
        turn(alloc, self.plan, &mut self.state, &mut self.due)
    }

    /// Whether all agents are retired.
    pub fn done(&self) -> bool
        ensures retired { (result ≡ true) ↔ AllByRecursion IsRetired self.now.state.agents }
        ensures left { (result ≡ true) ↔ (rest self.now.plan self.now.state ≡ []) }
        ensures timely { IsTimely self.now.plan self.now.state }
        ensures limits { IsWithinLimits self.now.plan }
    {
        self.due.is_empty()
    }

    /// The stamp of the next step; none exactly where all agents are retired. It takes no memory.
    pub fn next_stamp(&self) -> Option<Stamp>
        ensures stamp { result ≡ least_stamp 0 self.now.state.agents }
        ensures retired { (result ≡ None) ↔ AllByRecursion IsRetired self.now.state.agents }
    {
        least_stamp(self.state.agents.as_slice(), &self.due)
    }

    /// The values of the variables, by number.
    pub fn values(&self) -> &List<Value>
        ensures { result.now ≡ self.now.state.values }
    {
        &self.state.values
    }

    /// The registers of an agent.
    pub fn regs(&self, agent: u32) -> &List<i64>
        requires { agent < length self.now.state.agents }
        ensures { Some result.now ≡ option_map (λ (a : TheAgent). a.regs) (slice_get self.now.state.agents agent) }
    {
        &self.state.agents.as_slice()[agent as usize].regs
    }

    /// The time of an agent's next step; none exactly where it is retired.
    pub fn next_time(&self, agent: u32) -> Option<u64>
        requires { agent < length self.now.state.agents }
        ensures { result ≡ option_and_then (λ (a : TheAgent). a.next) (slice_get self.now.state.agents agent) }
    {
        self.state.agents.as_slice()[agent as usize].next
    }
}
