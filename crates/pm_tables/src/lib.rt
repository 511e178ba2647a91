//! What is known of each class behind each tree port, and what a neighbour was told of this side.
#![tactic(auto)]

mod first;
mod port_row;
mod table;
#[cfg(test)]
mod tests;

pub use table::Table;
