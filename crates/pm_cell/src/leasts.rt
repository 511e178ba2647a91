//! The least moment that waits.
ghost use Rattle.std.specs.Prelude.{◌≡◌};
ghost use Rattle.pm_cell.specs.Helds.{views};
ghost use Rattle.pm_cell.specs.Leasts.{lesser};
ghost use Rattle.pm_cell.specs.Stands.{IsLeastOf};

use crate::cell::Cell;
use pm_base::Line;

// The lesser of two lines.
fn lesser(one: Line, other: Line) -> Line
    ensures { result ≡ lesser one other }
{
    if other.is_lower(&one) { other } else { one }
}

/// The least moment of all messages that wait at these cells, or the end where none waits: of settled cells it is the
/// least line of the world that they stand for. It takes no memory.
pub fn least(cells: &[Cell<'_>]) -> Line
    ensures { IsLeastOf result (views cells.now) }
{
    let mut least = Line::End;
    for cell in cells {
        least = lesser(least, cell.least());
    }
    least
}
