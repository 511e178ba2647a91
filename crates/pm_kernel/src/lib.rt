//! The optimistic run: epochs of deliveries, a commit at the least line behind each, and the lines of what is committed
//! written as it is. An engine makes the deliveries; the one here does it on the calling thread.
#![tactic(auto)]

mod ahead;
mod alone;
mod course;
mod engine;
mod ran;
mod resting;
mod run;
mod stage;
mod stirred;
mod window;
mod writing;

pub use ahead::Ahead;
pub use engine::{Engine, Stage};
pub use ran::{Outcome, Ran};
pub use run::{run_over, run_plain};
pub use stage::{Staged, stage_of};
pub use window::window_of;
pub use writing::{Counts, Wrote, write_entries};
