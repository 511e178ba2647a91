//! Where each variable is best kept: the placement for which the reads and writes of the sequential run go over the
//! fewest edges of the tree.
#![tactic(auto)]

mod best;
mod distances;
mod laws;
mod placement;
mod placing;
mod tally;
mod text;

pub use laws::worked_costs;
pub use placement::place;
pub use placing::{PlaceFault, Placing};
pub use text::placing_text;
