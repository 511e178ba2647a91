//! One variable's record over time: the writes and withdrawals that reached it, and the reads that were made of it. A
//! late write or withdrawal gives exactly the reads whose hit it changed their new hit.
#![tactic(auto)]

mod held;
mod index;
mod laws;
mod parts;
mod periods;
mod record;
mod rows;
#[cfg(test)]
mod tests;

pub use held::Held;
pub use laws::{
    lists_have_value_order, periods_cover, receipts_keep_settled, records_are_settled,
    sample_record, settling_settles, stale_reads_are_told, trimming_keeps_values,
};
pub use record::VarRecord;
