use pm_base::Memory;
use thiserror::Error;

/// Why a journal isn't replayed.
#[derive(Clone, Copy, Debug, PartialEq, Eq, Error)]
pub enum ReplayFault {
    /// The first line, counted from 1, that is no journal line or whose event isn't legal behind the lines before it.
    #[error("a line of the journal may not stand there")]
    Line { number: u64 },
    #[error("out of memory")]
    Memory,
}

impl From<Memory> for ReplayFault {
    ghost use Rattle.std.specs.Prelude.{◌≡◌};
    ghost use Rattle.pm_replay.specs.declared.fault.ReplayFault.TheVariants as fault;

    ghost from_gives = { λ _ f. f ≡ fault.Memory };

    fn from(_: Memory) -> ReplayFault {
        ReplayFault::Memory
    }
}
