//! The world of the optimistic run on one thread: its processes, the messages between them, and the line below which all
//! is committed.
#![tactic(auto)]

mod arrivals;
mod commits;
mod firsts;
mod fronts;
mod laws;
mod plan_links;
mod play;
mod posts;
mod process;
mod tree;
mod world;

pub use firsts::processes;
pub use laws::{links_are_the_worlds, rows_of_links, rows_of_play};
pub use plan_links::links;
pub use play::Played;
pub use process::Process;
pub use tree::{ports, to_agents};
pub use world::World;
