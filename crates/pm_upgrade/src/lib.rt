//! A plan as a scenario's text, which reads back.
#![tactic(auto)]

mod laws;
mod names;
mod print;
mod rows;
mod tables;

pub use laws::read_plans_can_be_printed;
pub use print::print_plan;
