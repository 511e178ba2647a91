use pm_base::Memory;

/// Why a text is no rule. Lines are counted from 1; a named fault is the first of the first faulty line.
#[derive(Clone, Copy, Debug, PartialEq, Eq)]
pub enum RuleFault {
    /// Some characters are no token, or the tokens are no statement, or a reserved word is declared.
    Word { line: u64 },
    /// A register is declared after another statement, or a sense after the body began.
    Order { line: u64 },
    /// Too many `if` are open, or an `else` or `end` has none, or one is still open at the end.
    Nesting { line: u64 },
    /// Too many lines, tokens in a line, registers or senses.
    TooLong { line: u64 },
    /// A declared name is declared already.
    Twice { line: u64 },
    /// A register, sense, variable or class isn't there, or a class that is indexed has no member.
    Unknown { line: u64 },
    Memory,
}

impl From<Memory> for RuleFault {
    ghost use Rattle.std.specs.Prelude.{◌≡◌};
    ghost use Rattle.pm_rules.specs.declared.fault.RuleFault.TheVariants as fault;

    ghost from_gives = { λ _ f. f ≡ fault.Memory };

    fn from(_: Memory) -> RuleFault {
        RuleFault::Memory
    }
}
