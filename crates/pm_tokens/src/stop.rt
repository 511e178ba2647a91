use pm_base::Memory;

/// Why a line is not read on.
#[derive(Debug, Drop)]
pub enum Stop {
    Memory,
    Word,
}

impl From<Memory> for Stop {
    ghost use Rattle.std.specs.Prelude.{◌≡◌};
    ghost use Rattle.pm_tokens.specs.declared.stop.Stop.TheVariants as stop;

    ghost from_gives = { λ _ e. e ≡ stop.Memory };

    fn from(_: Memory) -> Stop {
        Stop::Memory
    }
}
