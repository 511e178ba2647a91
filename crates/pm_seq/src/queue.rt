ghost use Rattle.std.specs.Prelude.{◌≡◌, ◌<◌, ◌^◌, IfOk, OnOk, OnErr, length};
ghost use Rattle.pm_base.specs.declared.stamp.Stamp.{Stamp as TheStamp};
ghost use Rattle.pm_model.specs.Runs.{least_stamp};
ghost use Rattle.pm_seq.specs.Queues.{has, with_next, without, IsQueue};

use pm_base::{Memory, Stamp};
use pm_model::AgentState;
use std::alloc::Global;
use std::collections::BTreeSet;

/// The least stamp of a queue: that of the agent that acts next.
pub fn least_stamp(agents: &[AgentState], due: &BTreeSet<Stamp>) -> Option<Stamp>
    requires { IsQueue agents.now due.now }
    ensures { result ≡ least_stamp 0 agents.now }
{
    let _ = agents;
    match due.first() {
        Some(stamp) => Some(*stamp),
        None => None,
    }
}

/// Adds the stamp of an agent's next step, where it makes one.
fn enter(due: &mut BTreeSet<Stamp>, agent: u32, next: Option<u64>) -> Result<(), Memory>
    ensures ok { OnOk result ((q : TheStamp) → has due.new q ≡ with_next agent next (has due.old) q) }
    ensures err { OnErr result (due.new.keys ≡ due.old.keys) }
{
    if let Some(time) = next {
        due.insert(Stamp { time, agent })?;
    }
    Ok(())
}

/// Takes a stamp away, and adds that of its agent's next step. After `Memory` nothing has changed.
pub fn advance(due: &mut BTreeSet<Stamp>, stamp: Stamp, next: Option<u64>) -> Result<(), Memory>
    ensures ok { OnOk result ((q : TheStamp) → has due.new q ≡
        without stamp (with_next stamp.agent next (has due.old)) q) }
    ensures err { OnErr result (due.new.keys ≡ due.old.keys) }
{
    enter(due, stamp.agent, next)?;
    due.remove(&stamp);
    Ok(())
}

/// The queue of these agents.
pub fn queue_of(alloc: Global, agents: &[AgentState]) -> Result<BTreeSet<Stamp>, Memory>
    requires { length agents.now < 2 ^ 32 }
    ensures { IfOk result (IsQueue agents.now) }
{
    let mut due = BTreeSet::new(alloc);
    for (number, agent) in agents.iter().enumerate() {
        enter(&mut due, number as u32, agent.next)?;
    }
    Ok(due)
}
