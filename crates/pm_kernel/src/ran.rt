// What a run comes to.
ghost use Rattle.std.specs.Prelude.{◌≡◌, []};

use crate::writing::Counts;
use pm_base::{Journal, List};
use std::alloc::Global;

/// Why a run ended.
#[derive(Clone, Copy, Debug, PartialEq, Eq)]
pub enum Outcome {
    /// Nothing is left to be delivered, and the line of each step was written.
    Done,
    /// As many deliveries were made as the budget has, and more is to be delivered.
    BudgetSpent,
    /// The output failed, or took nothing.
    WriteFault,
    /// Memory ran out.
    Memory,
}

/// What a run came to.
#[derive(Debug, Drop)]
pub struct Ran {
    /// Why it ended.
    pub outcome: Outcome,
    /// Its events, up to the last Commit.
    pub journal: Journal,
    /// How many steps, hits and writes were committed and written; where the run isn't done, of whole Commits alone.
    pub counts: Counts,
}

impl Ran {
    /// A run for whose begin there was no memory.
    pub fn starved(alloc: Global) -> Ran
        ensures outcome { result.outcome ≡ Outcome.Memory }
        ensures journal { result.journal ≡ [] }
    {
        Ran {
            outcome: Outcome::Memory,
            journal: List::new(alloc),
            counts: Counts::none(),
        }
    }
}
