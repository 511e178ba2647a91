//! Bringing all that was sent to the cells that receive it.
ghost use Rattle.std.specs.Prelude.{◌≡◌, ◌≢◌, ◌<◌, OnOk, length, ℕ};
ghost use Rattle.pm_ends.specs.Ends.{AllGrew};
ghost use Rattle.pm_ends.specs.Numbers.{Pairs, nth};
ghost use Rattle.pm_cell.specs.Draws.{AllDrawnIn, AllWiredIn, HeldGrew, IsDrawnAt};
ghost use Rattle.pm_cell.specs.Helds.{AreCells, inns_of, views};
ghost use Rattle.pm_cell.specs.Stands.{CellLooked};
ghost use Rattle.pm_cell.specs.Views.{Settled, nobody};

use crate::cell::Cell;
use pm_base::Memory;
use pm_ends::InEnds;
use std::alloc::Global;

// Draws the link of the in-end at that place.
fn draw_at(cells: &mut [Cell<'_>], inns: &mut InEnds, at: usize) -> Result<(), Memory>
    requires { AllWiredIn cells.old inns.old }
    ensures cells { cells.new ≡ cells.old }
    ensures grew { AllGrew inns.old inns.new }
    ensures others { (j : ℕ) → j ≢ at → nth inns.new j ≡ nth inns.old j }
    ensures drawn { OnOk result (IsDrawnAt cells.old inns.new at) }
{
    match inns.from(at) {
        Some(from) => cells[from as usize].draw_into(inns, at),
        None => Ok(()),
    }
}

// Draws the links of these in-ends.
fn draw_all(cells: &mut [Cell<'_>], inns: &mut InEnds) -> Result<(), Memory>
    requires { AllWiredIn cells.old inns.old }
    ensures cells { cells.new ≡ cells.old }
    ensures grew { AllGrew inns.old inns.new }
    ensures drawn { OnOk result (AllDrawnIn cells.old inns.new) }
{
    for at in 0..inns.len() {
        draw_at(cells, inns, at)?;
    }
    Ok(())
}

// Draws the links that end at one cell. Its in-ends stand apart meanwhile, since a process may send to itself.
fn settle_at(alloc: Global, cells: &mut [Cell<'_>], at: usize) -> Result<(), Memory>
    requires at { at < length cells.old }
    requires wired { AllWiredIn cells.old (inns_of cells.old at) }
    ensures grew { Pairs HeldGrew cells.old cells.new }
    ensures others { (k : ℕ) → k ≢ at → nth cells.new k ≡ nth cells.old k }
    ensures drawn { OnOk result (AllDrawnIn cells.new (inns_of cells.new at)) }
{
    let mut inns = cells[at].take_inns(alloc);
    let done = draw_all(cells, &mut inns);
    cells[at].put_inns(inns);
    done
}

/// Brings all that was sent to the cells that receive it, where it waits. After `Memory` nothing is lost, and it can be
/// done again.
pub fn settle(alloc: Global, cells: &mut [Cell<'_>]) -> Result<(), Memory>
    requires { AreCells (views cells.old) }
    ensures looked { Pairs CellLooked (views cells.old) (views cells.new) }
    ensures settled { OnOk result (Settled nobody (views cells.new)) }
{
    for at in 0..cells.len() {
        settle_at(alloc, cells, at)?;
    }
    Ok(())
}
