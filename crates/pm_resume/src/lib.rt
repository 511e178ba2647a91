//! A plan that goes on from a time: its sequential run is the rest of the given plan's run.
#![tactic(auto)]

mod advance;
mod copies;
mod cutting;
mod resumed;
mod rows;

pub use cutting::cut;
use pm_base::Memory;
pub use rows::{a_counter_goes_on, a_retired_agent_is_stuck};

/// Why a plan isn't cut.
#[derive(Clone, Copy, Debug, PartialEq, Eq)]
pub enum CutFault {
    /// More steps lie before the time than the budget allows.
    BudgetSpent,
    /// This agent, the first such, makes no further step, and no start is late enough for it: the horizon is the last
    /// time that a plan may name.
    Retired { agent: u32 },
    Memory,
}

impl From<Memory> for CutFault {
    ghost use Rattle.std.specs.Prelude.{◌≡◌};
    ghost use Rattle.pm_resume.specs.declared.CutFault.TheVariants as fault;

    ghost from_gives = { λ _ f. f ≡ fault.Memory };

    fn from(_: Memory) -> CutFault {
        CutFault::Memory
    }
}
