use crate::Kind;
use pm_base::Memory;

/// Why there is no plan of some parts. Indices are counted within the kind, a variable's through all classes.
#[derive(Clone, Copy, Debug, PartialEq, Eq)]
pub enum PlanFault {
    /// There are too few or too many of a kind, or a time is too late.
    Limit { kind: Kind },
    /// What is given as a name may not stand as one.
    Name { kind: Kind, index: u32 },
    /// The name stands at a lower index of the kind.
    Twice { kind: Kind, index: u32 },
    /// The communication processes are no tree, on account of this one.
    Tree { clp: u32 },
    /// The variable or the agent is at no communication process.
    Place { kind: Kind, index: u32 },
    Memory,
}

impl From<Memory> for PlanFault {
    ghost use Rattle.std.specs.Prelude.{◌≡◌};
    ghost use Rattle.pm_plan.specs.declared.fault.PlanFault.TheVariants as fault;

    ghost from_gives = { λ _ f. f ≡ fault.Memory };

    fn from(_: Memory) -> PlanFault {
        PlanFault::Memory
    }
}
