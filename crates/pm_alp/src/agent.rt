use pm_base::{List, Num, Stamp};
use pm_saved::KeptStep;

/// The call to itself that an agent awaits: its number, and the moment of the step that then begins.
#[derive(Clone, Copy, Debug, PartialEq, Eq)]
pub struct Awaited {
    pub num: Num,
    pub stamp: Stamp,
}

/// An agent between two messages: the registers before its kept steps, these steps in order, the call that it awaits,
/// and how many numbers it has used.
#[derive(Debug, Drop)]
pub struct Agent {
    pub base: List<i64>,
    pub steps: List<KeptStep>,
    pub awaited: Option<Awaited>,
    pub seq: u64,
}
