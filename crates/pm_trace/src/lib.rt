//! The text of a trace, and entries brought into order.
#![tactic(auto)]

mod order;
#[cfg(test)]
mod tests;
mod text;

pub use order::merge;
pub use text::{end_line, line};
