//! Epochs of work: workers in threads of their own give turns to stations, up to a quota of deliveries. Each worker has
//! its stations on loan, or all workers take turns at all stations.
#![tactic(auto)]

mod by_loans;
mod by_turns;
mod counting;
mod last;
mod plan;
mod post;
mod rounds;
mod seats;
mod station;
#[cfg(test)]
mod tests;

pub use by_loans::epoch_loans;
pub use by_turns::epoch_turns;
pub use counting::Count;
pub use station::{Station, Turned};
