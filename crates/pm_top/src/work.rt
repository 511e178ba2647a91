// What a mode's work came to.
ghost use Rattle.std.specs.Prelude.{◌≡◌, []};

use crate::outcome::Ending;
use pm_base::{Journal, List};
use std::alloc::Global;

/// How a mode's work ended, and the events of its run.
#[derive(Debug, Drop)]
pub struct Worked {
    pub ending: Ending,
    pub journal: Journal,
}

/// An ending without a journal.
pub fn still(alloc: Global, ending: Ending) -> Worked
    ensures ending { result.ending ≡ ending }
    ensures journal { result.journal ≡ [] }
{
    Worked {
        ending,
        journal: List::new(alloc),
    }
}
