// Which agents wait for their next moment.
use pm_base::{Line, Memory, Stamp};
use std::alloc::Global;
use std::collections::BTreeSet;

/// The moments for which agents wait, in order. It saves looking: no theorem needs it, and a moment that is no longer
/// waited for does no harm.
#[derive(Debug, Drop)]
pub struct Resting {
    // The process number of the first agent.
    first: u32,
    moments: BTreeSet<Stamp>,
}

impl Resting {
    /// No agent waits. `first` is the process number of the first agent.
    pub fn none(alloc: Global, first: u32) -> Resting {
        Resting {
            first,
            moments: BTreeSet::new(alloc),
        }
    }

    /// How many moments there are.
    pub fn count(&self) -> usize {
        self.moments.len()
    }

    /// The agent of that moment waits for it.
    pub fn enter(&mut self, moment: Stamp) -> Result<(), Memory> {
        self.moments.insert(moment)?;
        Ok(())
    }

    /// The process number of the agent that waits for the least moment, where the window lets this through; it waits no
    /// longer.
    pub fn leave(&mut self, window: Option<Line>) -> Option<u32> {
        let least = *self.moments.first()?;
        if is_let_through(window, least) {
            self.moments.pop_first();
            Some(self.first.wrapping_add(least.agent))
        } else {
            None
        }
    }
}

// Whether a Wake of that moment is let through.
fn is_let_through(window: Option<Line>, moment: Stamp) -> bool {
    match window {
        Some(line) => line.is_past(moment),
        None => true,
    }
}
