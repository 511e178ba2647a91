//! The printed form of a rule, which reads back.
#![tactic(auto)]

mod printing;
mod printing_laws;
#[cfg(test)]
mod printing_tests;

pub use printing::print;
pub use printing_laws::{printed_lines_are_read, printed_rules_read_back, printed_tokens_are_read};
