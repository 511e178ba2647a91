//! All that the program does, over any source and sinks.
#![tactic(auto)]

mod check;
mod demo;
mod laws;
mod lowest;
mod makers;
mod optimistic;
mod outcome;
mod program;
mod reading;
mod refusals;
mod replays;
mod run;
mod serving;
#[cfg(test)]
mod tests;
mod texts;
mod work;

pub use laws::{worked_endings, worked_outputs, worked_refusals};
pub use outcome::{Ending, offer, status_of};
pub use program::{Report, plain, top};
