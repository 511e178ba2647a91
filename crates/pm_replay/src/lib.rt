//! A journal checked by itself: whether each of its events may stand where it does, and what they commit.
#![tactic(auto)]

mod fault;
mod laws;
mod parting;
mod reading;
mod replayed;
mod replaying;

pub use fault::ReplayFault;
pub use laws::{one_line_is_first, worked_parts};
pub use parting::parts;
pub use replayed::Replayed;
pub use replaying::replay;
