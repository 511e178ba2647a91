//! An agent's side of the optimistic core: it runs ahead on what it was told, keeps each step until it is committed,
//! and goes back where a hit changes.
#![tactic(auto)]

mod agent;
mod alp;
mod laws;
mod parts;
mod state;
mod takes;
#[cfg(test)]
mod tests;

pub use agent::{Agent, Awaited};
pub use alp::Alp;
pub use laws::{
    an_older_turn_changes_nothing, changes_go_back, committed_steps_stay, moments_stay_in_order,
    no_wake_without_waiting, numbers_only_rise, sample_ends, sample_queries, sample_rollbacks,
    sample_senses,
};
pub use parts::AlpParts;
