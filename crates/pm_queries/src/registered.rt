use pm_base::{List, Num, Stamp, Window};
use pm_message::Message;

/// A class query as it was registered: what it asks for, the process that it came from, the ports that it was sent to,
/// and those whose Finish it waits for.
#[derive(Debug, Drop)]
pub struct Registered {
    pub num: Num,
    pub stamp: Stamp,
    pub class: u32,
    pub window: Window,
    pub from: u32,
    pub sent: List<u32>,
    pub waits: List<u32>,
}

/// A message with the process that it goes to.
#[derive(Debug, Drop)]
pub struct Sent {
    pub to: u32,
    pub message: Message,
}

// Where a query stands: among those of its class, by its stamp and then by its number.
#[derive(Clone, Copy, Debug, PartialEq, Eq)]
pub struct Spot {
    pub class: u32,
    pub stamp: Stamp,
}
