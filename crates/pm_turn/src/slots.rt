// The values of a table's slots.
ghost use Rattle.std.specs.Prelude.{◌≡◌, ◌<◌, ◌≤◌, ℕ, length, map, vec_len, IfOk, Some};
ghost use Rattle.std.specs.Vec.{vec_capacity};
ghost use Rattle.std.specs.Mem.Slots.{slots_items, slots_len, IsFull};
ghost use mathlib.Core.Option.{some};
ghost use lib.ListN.{get_elem?};
ghost use Rattle.pm_turn.specs.Rule.{AllSome};

use atomic_table::Closed;
use pm_base::Memory;
use std::alloc::Global;

// Each value, as its slot has it.
pub(crate) fn filled<T: Drop>(alloc: Global, values: Vec<T>) -> Result<Vec<Option<T>>, Memory>
    ensures { IfOk result (λ v. v.items ≡ map (λ x. Some x) values.items) }
{
    let mut slots = Vec::with_capacity(alloc, values.len())?;
    for x in values {
        slots.push_reserved(Some(x));
    }
    Ok(slots)
}

// The values of all slots in order, put into a list that has room for them.
pub(crate) fn emptied<T: Drop>(closed: Closed<Option<T>, Global>, room: Vec<T>) -> Vec<T>
    requires full { IsFull closed.slots × AllSome (slots_len closed.slots) (slots_items closed.slots) }
    requires room { (vec_len room ≡ 0) × (slots_len closed.slots ≤ vec_capacity room) }
    ensures len { length result.items ≡ slots_len closed.slots }
    ensures each { (i : ℕ) (x : _) → get_elem? result.items i ≡ some x →
        get_elem? (slots_items closed.slots) i ≡ some (Some x) }
{
    let mut closed = closed;
    let mut room = room;
    for i in 0..closed.slot_count() {
        match closed.take(i) {
            Some(x) => room.push_reserved(x),
            None => unreachable!(),
        }
    }
    closed.free();
    room
}
