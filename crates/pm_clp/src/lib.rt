//! A communication process: it keeps the records of variables, answers what is asked of them, sends on what isn't its
//! own, and moves a variable towards those that use it.
#![tactic(auto)]

mod clp;
mod deliver;
mod firsts;
mod kept;
mod laws;
mod records;
mod sends;
mod takes;
mod var_set;

pub use clp::Clp;
pub use firsts::ClpParts;
pub use laws::{no_wake_is_taken, sample_commits, sample_moves, sample_queries, sample_writes};
pub use pm_queries::{Registered, Sent};
