//! The optimistic run on threads: each process is a cell, workers give the cells turns, and at the end of each epoch what
//! the cells heard is merged into the one journal of the run.
#![tactic(auto)]

mod crew;
mod running;
mod stage;
mod stories;

pub use running::{Hands, run};
