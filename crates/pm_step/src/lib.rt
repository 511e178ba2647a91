//! The step of a rule: sense, decide, act.
#![tactic(auto)]

mod arithmetic;
mod expressions;
pub mod laws;
pub mod steps;
#[cfg(test)]
mod tests;

pub use pm_base::Act;
use pm_base::{List, Query, Write};

/// What an agent does next: it asks for something, or it acts.
#[derive(Debug, Drop)]
pub enum Next {
    Ask(Query),
    Act(Act),
}

/// What a body has done so far.
#[derive(Debug, Drop)]
pub struct Deeds {
    regs: List<i64>,
    writes: List<Write>,
    wait: i64,
}
