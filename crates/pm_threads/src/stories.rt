// What a run asks of its cells.
ghost use Rattle.std.specs.Prelude.{◌≡◌, map, IfOk};
ghost use Rattle.pm_cell.specs.Helds.{Held as TheCell, view_of};
ghost use Rattle.pm_cell.specs.Views.{story_of};
ghost use Rattle.pm_threads.specs.Crews.{windowed};

use pm_base::{Line, List, Memory, Stamp};
use pm_cell::Cell;
use pm_history::History;
use std::alloc::Global;

/// All cells have this window.
pub fn set_windows(cells: &mut Vec<Cell<'_>>, window: Option<Line>)
    ensures { cells.new.items ≡ map (windowed window) cells.old.items }
{
    for cell in cells.iter_mut() {
        cell.set_window(window);
    }
}

/// The cells' stories, once more.
pub fn histories(alloc: Global, cells: &[Cell<'_>]) -> Result<List<History>, Memory>
    ensures { IfOk result (λ hs. hs ≡ map (λ (c : TheCell). story_of (view_of c)) cells.now) }
{
    let mut all = List::new(alloc);
    for cell in cells {
        all.push(cell.history(alloc)?)?;
    }
    Ok(all)
}

// Keeps the so many least stamps, in order.
fn keep_least(least: &mut Vec<Stamp>, stamp: Stamp, count: usize) -> Result<(), Memory> {
    let at = least.partition_point(|kept| kept.is_before(&stamp));
    if at < count {
        least.insert(at, stamp)?;
        least.truncate(count);
    }
    Ok(())
}

/// The line just above the moment of the agent that is to act as the `count`-th, counted from 1, or as the last where there
/// are fewer: none where one acts alone. So an agent begins one step in an epoch, whatever `count` is: where agents meet,
/// each step more that they are ahead of one another multiplies what a late write takes back.
pub fn ahead_of(alloc: Global, cells: &[Cell<'_>], count: usize) -> Result<Option<Line>, Memory> {
    let mut least = Vec::with_capacity(alloc, count)?;
    for cell in cells {
        if let Some(stamp) = cell.next() {
            keep_least(&mut least, stamp, count)?;
        }
    }
    if least.len() < 2 {
        return Ok(None);
    }
    Ok(
        least.last().map(|stamp| {
            Line::At(Stamp {
                time: stamp.time,
                agent: stamp.agent.saturating_add(1),
            })
        }),
    )
}
