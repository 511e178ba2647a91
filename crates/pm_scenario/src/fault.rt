use pm_base::{Memory, Name};
use pm_plan::PlanFault;
use pm_rules::RuleFault;

/// Why a scenario is refused: the first cause, in the order of reading. A `key` is the path of a key from the root, as
/// `class[0].var[2].x`, indices counted from 0.
#[derive(Debug, Drop)]
pub enum ScenarioFault {
    /// The bytes are no TOML document.
    NotToml,
    /// The version is neither 1 nor 2.
    Version,
    /// A required key is absent.
    Missing { key: Name },
    /// A value is of another kind than its key asks for.
    Kind { key: Name },
    /// A key isn't one of its table's.
    Strange { key: Name },
    /// The rule of that agent is no rule.
    Rule { agent: u32, fault: RuleFault },
    /// The parts make no plan.
    Plan { fault: PlanFault },
    Memory,
}

impl From<Memory> for ScenarioFault {
    ghost use Rattle.std.specs.Prelude.{◌≡◌};
    ghost use Rattle.pm_scenario.specs.declared.fault.ScenarioFault.TheVariants as fault;

    ghost from_gives = { λ _ f. f ≡ fault.Memory };

    fn from(_: Memory) -> ScenarioFault {
        ScenarioFault::Memory
    }
}
