//! A scenario for each number: a generator's draws, and the parts that they give.
#![tactic(auto)]

mod draws;
mod laws;
mod parts;
mod rules;
mod scenario;
#[cfg(test)]
mod tests;

pub use laws::{draws_are_below, every_scenario_is_a_plan, rules_are_read, scenario_of_one};
pub use scenario::scenario_of;
