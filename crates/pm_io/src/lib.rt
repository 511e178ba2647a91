//! The traits of the outside, the devices in memory that stand for it, and the adapters over readers and writers.
#![tactic(auto)]

mod gate;
mod laws;
mod memory;
mod script;
mod sink;
mod source;
mod standard;
#[cfg(test)]
mod tests;

pub use gate::{FreeGate, Gate};
pub use laws::{rose_law, worked_cues};
pub use memory::{MemSink, MemSource};
pub use script::Cue;
pub use sink::{Sink, write_whole};
pub use source::{Failed, Source};
pub use standard::{StdSink, StdSource};
