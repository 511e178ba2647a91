//! What threads make of a plan's processes: a process with its clock, its ends and the story of what it heard, and
//! the laws of their stories. Whatever turns were made, the stories merge into one legal run of the world, and where
//! all that was sent has come to its receivers, the processes stand for the world that the run leads to.
#![tactic(auto)]

mod begin;
mod cell;
mod choosing;
mod committing;
mod hearing;
mod laws;
mod leasts;
mod settling;
mod turning;

pub use begin::cells;
pub use cell::Cell;
pub use committing::commit;
pub use laws::{
    commits_are_the_worlds, idle_cells_are_done, least_is_the_worlds,
    the_histories_merge_to_one_run,
};
pub use leasts::least;
pub use settling::settle;
