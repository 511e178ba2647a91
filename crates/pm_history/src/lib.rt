//! Histories and journals: what each process heard, the one journal of several histories, and the text of a journal,
//! which tells what happened in a run of the optimistic core, one event a line.
#![tactic(auto)]

mod fault;
mod histories;
mod laws;
mod merging;
mod printing;
mod reading;
mod scanning;
#[cfg(test)]
mod tests;

pub use fault::JournalFault;
pub use histories::{Heard, History, clocks_rise};
pub use laws::{faulty_texts_are_no_journals, printed_journals_read_back, worked_lines};
pub use merging::{merge, worked_merge};
pub use printing::print;
pub use reading::read;
pub use scanning::event;
