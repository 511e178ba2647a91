//! Which values of a class may stand behind a tree port, at each stamp.
#![tactic(auto)]

mod bounds;
mod boxes;
mod laws;
mod piece;
mod pieces;
#[cfg(test)]
mod tests;

pub use bounds::Bounds;
pub use laws::{
    bounds_are_joins, covering_is_told, fitting_is_kept, growing_joins, sample_bounds,
    trimming_keeps,
};
