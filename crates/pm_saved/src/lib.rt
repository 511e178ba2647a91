//! The steps that an agent may still have to take back: what each sensed, how it ended, and what a rollback or a commit
//! makes of them.
#![tactic(auto)]

mod held;
mod hits;
mod kept;
mod laws;
mod look;
mod saved;
mod spot;
mod steps;
#[cfg(test)]
mod tests;

pub use kept::{KeptAct, KeptHit, KeptSense, KeptStep};
pub use laws::{
    a_line_divides_the_steps, places_have_their_number, sample_saved,
    steps_are_withdrawn_one_by_one,
};
pub use saved::Saved;
pub use spot::Spot;
