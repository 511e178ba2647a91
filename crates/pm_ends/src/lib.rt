//! The ends of a process's links: those that it receives from, by sender, and those that it sends over, by receiver.
//! What goes over a link is a message with its sender's clock.
#![tactic(auto)]

mod drawing;
mod in_ends;
mod out_ends;
mod post;
#[cfg(test)]
mod tests;
mod tree;
mod wiring;

pub use drawing::draw;
pub use in_ends::{InEnds, senders_rise};
pub use out_ends::{OutEnds, receivers_rise};
pub use post::Post;
pub use wiring::wires;
