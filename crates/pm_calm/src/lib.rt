//! The lowest run: one that always delivers the message of least stamp. It is a legal run of the core's world, and it
//! never rolls back. Definitions that contracts cite, and their laws.
#![tactic(auto)]

mod laws;
mod rows;

pub use laws::{
    the_least_link, the_lowest_run_commits_the_sequential_run, the_lowest_run_ends,
    the_lowest_run_goes_on, the_lowest_run_is_legal, the_lowest_run_never_rolls_back,
};
pub use rows::{a_query_after_a_write, a_write_in_time, counting_up};
