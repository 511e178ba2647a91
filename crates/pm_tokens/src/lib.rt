//! The lines of a rule's text, and the tokens of a line.
#![tactic(auto)]

mod lexing;
mod lines;
mod stop;
#[cfg(test)]
mod tests;
mod token;

pub use lexing::{lex, name_of};
pub use lines::{code, lines_of};
pub use stop::Stop;
pub use token::{Symbol, Token};
