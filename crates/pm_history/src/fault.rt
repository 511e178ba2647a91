use thiserror::Error;

/// Why a text is no journal.
#[derive(Clone, Copy, Debug, PartialEq, Eq, Error)]
pub enum JournalFault {
    /// The first line that is no journal line, counted from 1.
    #[error("a line is no journal line")]
    Line { number: u64 },
    #[error("out of memory")]
    Memory,
}
