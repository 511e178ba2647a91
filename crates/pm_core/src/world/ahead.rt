// How far agents run ahead of one another.
use super::World;
use pm_base::{Line, Memory, Stamp};
use std::alloc::Global;

// Keeps the so many least stamps, in order.
fn keep_least(least: &mut Vec<Stamp>, stamp: Stamp, count: usize) -> Result<(), Memory> {
    let at = least.partition_point(|kept| kept.is_before(&stamp));
    if at < count {
        least.insert(at, stamp)?;
        least.truncate(count);
    }
    Ok(())
}

impl<'a> World<'a> {
    /// The line just above the moment of the agent that is to act as the `count`-th, counted from 1: none where fewer are
    /// to act. It is for a bound on how far agents run ahead of one another; no theorem needs it.
    pub fn ahead(&self, alloc: Global, count: usize) -> Result<Option<Line>, Memory> {
        let mut least = Vec::with_capacity(alloc, count)?;
        for alp in self.processes.alps.as_slice() {
            if let Some(stamp) = alp.next() {
                keep_least(&mut least, stamp, count)?;
            }
        }
        if least.len() < count {
            return Ok(None);
        }
        Ok(
            least.last().map(|stamp| {
                Line::At(Stamp {
                    time: stamp.time,
                    agent: stamp.agent.saturating_add(1),
                })
            }),
        )
    }

    /// The moment for which the agent of that process number waits: none where it is in a step or has retired, and of a
    /// communication process. It is for passing over processes that have nothing to hear; no theorem needs it.
    pub fn moment(&self, number: u32) -> Option<Stamp> {
        let agent = (number as usize).checked_sub(self.processes.plan.clps.len())?;
        self.processes.alps.get(agent)?.next()
    }
}
