//! A turn of a cell.
ghost use Rattle.std.specs.Prelude.{◌≡◌, ◌+◌, true, length};
ghost use Rattle.pm_workers.specs.Turns.{grown, is_memory};
ghost use Rattle.pm_workers.specs.declared.station.Turned.TheVariants as turned;
ghost use Rattle.pm_cell.specs.Helds.{view_of};
ghost use Rattle.pm_cell.specs.Stands.{CellCame, CellIsIdle, CellLooked, CellTurned};
ghost use Rattle.pm_cell.specs.Turns.{HeardSoonest};
ghost use Rattle.pm_cell.specs.Laws.{came_more, came_next, came_none};

use crate::cell::Cell;
use pm_history::Heard;
use pm_workers::{Station, Turned};
use std::alloc::Global;

impl<'a> Cell<'a> {
    /// Gives the cell a turn: it hears one message at most, of the first ones that wait at its in-ends and may be
    /// delivered the one of the least moment, at one moment the one of the least sender. It looks at one in-end, the
    /// next in turn, for what other threads have sent, and at all of them only before it answers `Nothing`; what they
    /// have sent meanwhile may be found or not. `Nothing` tells that it is idle. After `Memory` the cell is spoilt: every
    /// later turn answers `Memory`.
    pub fn take_turn(&mut self, alloc: Global) -> Turned
        ensures came { CellCame (view_of self.old) (view_of self.new) }
        ensures heard { result ≡ turned.Delivered → CellTurned (view_of self.old) (view_of self.new) }
        ensures soonest { result ≡ turned.Delivered → HeardSoonest self.old self.new }
        ensures looked { result ≡ turned.Nothing → CellLooked (view_of self.old) (view_of self.new) }
        ensures idle { result ≡ turned.Nothing → CellIsIdle (view_of self.new) }
        ensures story { length self.new.story ≡ length self.old.story + grown result }
        ensures spoilt { self.new.spoilt ≡ is_memory result }
        ensures stays { self.old.spoilt ≡ true → result ≡ turned.Memory }
    {
        if self.spoilt {
            return Turned::Memory;
        }
        let Some((from, post)) = self.take_next() else {
            return Turned::Nothing;
        };
        if self.hear(alloc, from, post).is_err() {
            return Turned::Memory;
        }
        Turned::Delivered
    }
}

impl<'a> Station for Cell<'a> {
    type Note = Heard;

    ghost story = { λ c. c.story };

    ghost idle = { λ c. CellIsIdle (view_of c) };

    ghost is_spoilt = { λ c. c.spoilt };

    ghost follows = { λ a b. CellCame (view_of b) (view_of a) };

    fn turn(&mut self, alloc: Global) -> Turned {
        self.take_turn(alloc)
    }

    fn number(&self) -> u32 {
        self.number
    }

    fn told(&self) -> u64 {
        self.story.heard().len() as u64
    }

    fn spoilt(&self) -> bool {
        self.spoilt
    }

    ghost reflexive = { λ c. came_none (view_of c) };

    ghost transitive = { λ a b c p q. came_next (view_of c) (view_of b) (view_of a) q p };

    ghost begins = { λ a b p. came_more (view_of b) (view_of a) p };
}
