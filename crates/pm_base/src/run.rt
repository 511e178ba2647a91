use crate::{Line, List};

/// What happens in a run of the optimistic core: a message is delivered, or all below a line is committed. Processes
/// are named by their numbers.
#[derive(Clone, Copy, Debug, PartialEq, Eq)]
pub enum Event {
    Deliver { to: u32, from: u32 },
    Commit { line: Line },
}

/// The events of a run, in order.
pub type Journal = List<Event>;

/// How a run of the optimistic core goes: the number of workers, how many deliveries it may make in all and between
/// two commits, how far ahead an agent may act (in times past the commit line, none for any), and whether processes
/// are shared by turn locks in place of loans.
#[derive(Clone, Copy, Debug, PartialEq, Eq)]
pub struct RunSettings {
    pub workers: u32,
    pub budget: u64,
    pub epoch: u64,
    pub window: Option<u64>,
    pub turns: bool,
}
