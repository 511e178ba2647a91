//! What each part of the lowest run costs, in deliveries, and that no read and no write of a variable is sent back.
//! Definitions that contracts cite, and their laws.
#![tactic(auto)]

mod laws;
mod rows;

pub use laws::{
    a_delivery_costs_one, a_grow_costs, a_range_query_costs, a_step_asks_no_more,
    agents_stay_straight, hits_cost, nothing_is_sent_back, straight_at_first, telling_costs,
    the_lowest_run_stays_straight, unread_records_are_few, ways_turn_with_messages,
};
pub use rows::{counting_costs, pruned_window_costs};
