//! What a run is made from: processes in a tree, variables in classes, agents with their rules.
#![tactic(auto)]

mod check;
mod fault;
pub mod laws;
mod make;
mod named;
mod numbers;
mod parts;
mod path;
mod plan;
mod rows;
mod tree;

pub use fault::PlanFault;
pub use parts::{AgentPart, ClassPart, ClpPart, PlanParts, VarPart};
pub use plan::{AgentRow, ClpRow, Kind, Plan, VarRow};

#[cfg(test)]
mod tests;
