//! The program of a rule's text, or its first fault; and the grammar of rules.
#![tactic(auto)]

mod draft;
mod expression;
mod fault;
mod grammar_laws;
mod laws;
mod names;
mod parsing;
mod places;
mod said;
mod spelling_laws;
mod statements;
#[cfg(test)]
mod tests;

pub use fault::RuleFault;
pub use grammar_laws::{accepted_texts_are_rules, refusals_are_first_faults, rules_are_accepted};
pub use laws::some_texts;
pub use names::Names;
pub use parsing::parse;
pub use spelling_laws::{
    read_was_spelled, spelled_in_a_larger_scope, spelled_is_read, spelled_tokens_are_counted,
};
