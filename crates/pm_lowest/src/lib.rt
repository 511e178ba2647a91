//! The lowest run: on one thread, always the message of least moment next. It never rolls anything back, and what it
//! commits is written as it is.
#![tactic(auto)]

mod course;
mod run;

pub use run::run_lowest;
