ghost use Rattle.std.specs.Prelude.{◌≡◌};
ghost use Rattle.pm_words.specs.Words.{mode_named, reads};

use pm_base::RunSettings;
use thiserror::Error;

/// What the program does.
#[derive(Clone, Copy, Debug, PartialEq, Eq)]
pub enum Mode {
    /// The sequential run of a scenario.
    Seq,
    /// How many parts a scenario has.
    Check,
    /// The optimistic run of a scenario.
    Run,
    /// The optimistic run of a generated scenario, told in one line.
    Demo,
    /// A scenario in the present form of the text.
    Upgrade,
    /// Where the variables of a scenario are best kept.
    Place,
    /// A scenario that goes on from a time of another.
    Cut,
    /// A scenario with a journal behind it: whether the journal is a legal run, and what it commits.
    Replay,
    /// The lowest run of a scenario, which always takes the message of least moment and never rolls back.
    Lowest,
}

impl Mode {
    /// Whether the mode reads the input.
    pub fn reads(self) -> bool
        ensures { result ≡ reads self }
    {
        self != Mode::Demo
    }
}

/// What the words ask for. An option that the mode doesn't use has no effect.
#[derive(Clone, Copy, Debug, PartialEq, Eq)]
pub struct Settings {
    pub mode: Mode,
    /// How a run goes; `budget` is counted in deliveries where the mode is `Run`, `Demo` or `Lowest`,
    /// else in steps of the sequential run.
    pub run: RunSettings,
    /// The number of the generated scenario.
    pub seed: u64,
    /// Whether the journal is written behind the trace.
    pub journal: bool,
    /// The time at which a scenario is cut.
    pub from: u64,
}

/// Why there are no settings.
#[derive(Clone, Copy, Debug, PartialEq, Eq, Error)]
pub enum WordsFault {
    #[error("the words are not understood")]
    Words,
    #[error("out of memory")]
    Memory,
}

/// The mode of this name: one line for each mode that the program serves.
#[tactic(auto, unfolding(crate::specs::Words::mode_named))]
pub fn mode_named(word: &str) -> Option<Mode>
    ensures { result ≡ mode_named word.now }
{
    if word == "seq" {
        Some(Mode::Seq)
    } else if word == "check" {
        Some(Mode::Check)
    } else if word == "run" {
        Some(Mode::Run)
    } else if word == "demo" {
        Some(Mode::Demo)
    } else if word == "upgrade" {
        Some(Mode::Upgrade)
    } else if word == "place" {
        Some(Mode::Place)
    } else if word == "cut" {
        Some(Mode::Cut)
    } else if word == "replay" {
        Some(Mode::Replay)
    } else if word == "lowest" {
        Some(Mode::Lowest)
    } else {
        None
    }
}
