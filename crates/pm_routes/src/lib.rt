//! Where each variable is, as a communication process knows it, and how often it was asked for from each side.
#![tactic(auto)]

mod counts;
mod laws;
mod places;
mod routes;
#[cfg(test)]
mod tests;
mod way;

pub use laws::{counts_one, sample_counts, tests_tell_the_draw};
pub use routes::Routes;
pub use way::Way;
