// A list that was made beforehand, put away where threads can share it. A `Vec<T>` can't be shared where `T` can't, and
// the turns are shared; so it lies in a table of one slot, out of reach until the table is closed.
ghost use Rattle.std.specs.Prelude.{◌≡◌, ◌≤◌, IfOk, vec_len};
ghost use Rattle.std.specs.Vec.{vec_capacity};
ghost use Rattle.pm_turn.specs.Rooms.{IsRoom};

use atomic_table::{Refused, Table, TableRule};
use pm_base::Memory;
use std::alloc::Global;

// The rule of such a table: the list is there, empty, and has room for so many items.
pub struct Away;

impl<T> TableRule<Vec<T>, (), usize> for Away {
    ghost holds = { λ count s. IsRoom count s.homes };

    ghost first = { λ count. tt };
}

// An empty list with room for a number of items.
#[derive(Drop)]
pub struct Room<T> {
    pub(crate) table: Table<Vec<T>, (), usize, Away, Global>,
    ghost sized: { (table.shared.table_id.words ≡ 1) × (table.shared.table_id.slots ≡ 1) },
}

impl<T: Drop> Room<T> {
    pub fn new(alloc: Global, count: usize) -> Result<Room<T>, Memory>
        ensures { IfOk result (λ r. r.table.shared.key ≡ count) }
    {
        let mut slots = Vec::with_capacity(alloc, 1)?;
        slots.push_reserved(Vec::with_capacity(alloc, count)?);
        match Table::new(alloc, &[0], slots, &count) {
            Ok((table, _seat)) => Ok(Room { table }),
            Err(Refused { slots: _ }) => Err(Memory),
        }
    }

    pub fn open(self) -> Vec<T>
        ensures { (vec_len result ≡ 0) × (self.table.shared.key ≤ vec_capacity result) }
    {
        let Room { table } = self;
        let mut closed = table.close();
        let list = closed.take(0);
        closed.free();
        list
    }
}
