//! The class queries that a communication process has registered: in order, found by number, and gone over by class.
#![tactic(auto)]

mod class_rows;
mod laws;
mod ports;
mod queries;
mod registered;

pub use laws::registers_are_kept;
pub use queries::Queries;
pub use registered::{Registered, Sent};
