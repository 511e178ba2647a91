//! Scenarios, from their texts.
#![tactic(auto)]

mod document;
mod draft;
mod fault;
mod fields;
mod laws;
mod place;
mod rules;
mod scenario;
mod tables;
#[cfg(test)]
mod tests;

pub use fault::ScenarioFault;
pub use laws::{strange_keys_are_least, worked_texts};
pub use scenario::read;
