//! The world of the optimistic core, its events and runs, and the theorem on them: whatever is delivered, rolled back and
//! moved, and in whatever order, what is committed is the sequential run. Definitions that contracts cite, and their laws.
#![tactic(auto)]

mod journal_laws;
mod kernel_laws;
mod kernel_rows;
mod reached;
mod theorem;
mod worked;

pub use journal_laws::{
    commits_hand_out, journals_are_sequential, journals_grow,
    playing_stops_at_the_first_illegal_event, the_least_line, windows_add,
};
pub use kernel_laws::{
    deliveries_add, idle_is_done, links_stay, messages_are_taken, nothing_below_is_kept,
    numbers_stay_low, some_message_is_ready, who_waits_is_woken, windows_are_ok,
};
pub use kernel_rows::{a_late_write_is_kept_until_its_commit, playing_a_late_write};
pub use reached::{events_reach_on, reached_worlds};
pub use theorem::{prefix, simulation, whole};
pub use worked::{
    a_late_write, a_moving_query, a_pruned_window, a_withdrawn_write, an_early_query,
    an_overtaken_cut, two_commits, writes_that_add,
};
