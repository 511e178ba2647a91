use pm_base::{Stamp, Window};

/// What is known at the stamps after the piece before, up to this end, that one included; none where nothing is.
#[derive(Clone, Copy, Debug, PartialEq, Eq)]
pub struct Piece {
    pub until: Stamp,
    pub window: Option<Window>,
}
