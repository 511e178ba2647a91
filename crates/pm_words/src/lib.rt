//! The words of the command line, as `clap` reads them: the mode, the options and the flag.
#![tactic(auto)]

mod command;
mod laws;
mod matched;
mod reading;
mod settings;
#[cfg(test)]
mod tests;
mod values;

pub use laws::{worked_options, worked_refusals, worked_words};
pub use reading::read;
pub use settings::{Mode, Settings, WordsFault};
