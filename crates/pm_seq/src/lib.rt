//! The sequential run of a plan, step by step.
#![tactic(auto)]

mod hits;
mod queue;
mod seq;
mod start;
#[cfg(test)]
mod tests;
mod turn;

pub use seq::Seq;
