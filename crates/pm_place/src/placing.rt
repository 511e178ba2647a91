use pm_base::{List, Memory};

/// A communication process for each variable, and what that costs: edges of the tree, summed over the reads and writes
/// of a run.
#[derive(Debug, Drop)]
pub struct Placing {
    /// The process of each variable, by variable number.
    pub at: List<u32>,
    /// The part of each variable in the cost, by variable number.
    pub costs: List<u64>,
    /// The cost: the sum of all parts.
    pub total: u64,
}

/// Why there is no placing.
#[derive(Clone, Copy, Debug, PartialEq, Eq)]
pub enum PlaceFault {
    /// The sequential run has more steps than the budget.
    BudgetSpent,
    Memory,
}

impl From<Memory> for PlaceFault {
    ghost use Rattle.std.specs.Prelude.{◌≡◌};
    ghost use Rattle.pm_place.specs.declared.placing.PlaceFault.TheVariants as fault;

    ghost from_gives = { λ _ f. f ≡ fault.Memory };

    fn from(_: Memory) -> PlaceFault {
        PlaceFault::Memory
    }
}
