//! Turn locks: a fixed number of values, each of which one thread at a time holds. A value that is given back has to
//! fit its mark, the value that its turn was made with, in the sense that its type says.
#![tactic(auto)]

mod room;
mod rule;
mod slots;
#[cfg(test)]
mod tests;
mod turns;
mod view;

pub use rule::{Fit, Marked};
pub use turns::{TurnSeat, Turns};
