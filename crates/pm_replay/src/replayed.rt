use pm_base::{Entry, Journal, List};

/// What a journal came to.
#[derive(Debug, Drop)]
pub struct Replayed {
    /// Its events.
    pub journal: Journal,
    /// The entries that its Commits hand out, in order: those of the sequential run below its last line.
    pub entries: List<Entry>,
    /// Whether all of the sequential run was committed: its last line is the end.
    pub ended: bool,
}
