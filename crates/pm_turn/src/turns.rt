// The turns and their seats.
ghost use Rattle.std.specs.Prelude.{◌≡◌, ◌<◌, length};

use crate::room::Room;
use crate::rule::{Both, Fit, Halve, Release, Rule, Take};
use crate::slots::{emptied, filled};
use crate::view::View;
use atomic_table::{Refused, Seat, Table};
use pm_base::{List, Memory};
use std::alloc::Global;
use std::snapshot::Snapshot;

/// A fixed number of values, one for each turn. Threads share the turns, and each takes turns with a seat of its own.
/// The mark of a turn is the value that it was made with: it has no bytes, and contracts alone see it.
#[derive(Drop)]
pub struct Turns<T: Fit> {
    // One word and one slot for each turn: 0 where the turn is free, 1 where a seat holds it.
    table: Table<Option<T>, View<T>, Snapshot<List<T>>, Rule, Global>,
    // The list that `close` answers.
    room: Room<T>,
    ghost words: { table.shared.table_id.words ≡ length table.shared.key.value },
    ghost slots: { table.shared.table_id.slots ≡ length table.shared.key.value },
    ghost some: { 0 < length table.shared.key.value },
    ghost room_is: { length table.shared.key.value ≡ room.table.shared.key },
}

/// What a thread takes turns with. Contracts see which turns it holds, how often it tried and what its last try read,
/// and how many of the 2^32 shares it has: a seat with all of them is the only one that is left.
#[derive(Drop)]
pub struct TurnSeat<T> {
    seat: Seat<Option<T>, View<T>>,
}

impl<T: Fit + Drop> Turns<T> {
    ghost use Rattle.std.specs.Prelude.{◌≡◌, ℕ, ◌+◌, ◌^◌, ◌<◌, ◌≤◌, [], ◌∷◌, length, IfOk, MatchOption};
    ghost use Rattle.pm_turn.specs.Rule.{FitsMark, AllFit};
    ghost use Rattle.pm_turn.specs.Seats.{marks, held, shares, tries, IsSeatOf, SameSeat, Missed, Taken};

    /// Turns for these values, which are their marks, and the first seat. The memory for the list that `close` answers
    /// is taken here. After `Memory` the values are dropped.
    pub fn new(alloc: Global, values: List<T>) -> Result<(Turns<T>, TurnSeat<T>), Memory>
        requires { (0 < length values) × (length values < 2 ^ 32) }
        ensures marks { IfOk result (λ r. marks r.0 ≡ values) }
        ensures seat { IfOk result (λ r. IsSeatOf r.0 r.1 × (held r.1 ≡ []) × (shares r.1 ≡ 2 ^ 32)) }
    {
        let about = Snapshot::of(&values);
        let count = values.len();
        let room = Room::new(alloc, count)?;
        let words = Vec::from_elem(alloc, 0u64, count)?;
        let slots = filled(alloc, values.into_vec())?;
        match Table::new(alloc, words.as_slice(), slots, &about) {
            Ok((table, seat)) => Ok((Turns { table, room }, TurnSeat { seat })),
            Err(Refused { slots: _ }) => Err(Memory),
        }
    }

    /// Takes turn `i` with its value, by one compare and exchange: none exactly where the word that this read wasn't 0,
    /// so where a seat held the turn. It takes no memory and never waits.
    pub fn try_take(&self, seat: &mut TurnSeat<T>, i: u32) -> Option<T>
        requires seat { IsSeatOf self.now seat.old }
        requires range { i < length (marks self.now) }
        ensures seat { SameSeat self.now seat.old seat.new }
        ensures tries { tries seat.new ≡ tries seat.old + 1 }
        ensures value { MatchOption result (Missed seat.old seat.new)
            (λ x. Taken T.fits self.now i x seat.old seat.new) }
    {
        let shared = &self.table.shared;
        let found = shared.compare_exchange::<Take>(&mut seat.seat, i as usize, 0, 1);
        if found != 0 {
            return None;
        }
        shared.exchange(&mut seat.seat, i as usize, None)
    }

    /// Gives the turn back that the seat took last, with a value that fits its mark. It takes no memory.
    pub fn give(&self, seat: &mut TurnSeat<T>, i: u32, value: T)
        requires seat { IsSeatOf self.now seat.old }
        requires held { (more : _) × (held seat.old ≡ i ∷ more) }
        requires range { i < length (marks self.now) }
        requires fits { FitsMark T.fits (marks self.now) i value }
        ensures seat { SameSeat self.now seat.old seat.new }
        ensures held { held seat.old ≡ i ∷ held seat.new }
    {
        let shared = &self.table.shared;
        drop(shared.exchange(&mut seat.seat, i as usize, Some(value)));
        shared.store::<Release>(&mut seat.seat, i as usize, 0);
    }

    /// A new seat, which gets one share of this one's. It takes no memory.
    pub fn split(&self, seat: &mut TurnSeat<T>) -> TurnSeat<T>
        requires seat { IsSeatOf self.now seat.old }
        requires shares { 2 ≤ shares seat.old }
        ensures seat { IsSeatOf self.now seat.new × (held seat.new ≡ held seat.old) }
        ensures shares { shares seat.old ≡ shares seat.new + 1 }
        ensures new { IsSeatOf self.now result × (held result ≡ []) × (shares result ≡ 1) }
    {
        let new = self.table.shared.split_seat::<Halve>(&mut seat.seat);
        TurnSeat { seat: new }
    }

    /// Takes in a seat that holds no turn, with all its shares. It takes no memory.
    pub fn join(&self, seat: &mut TurnSeat<T>, other: TurnSeat<T>)
        requires seat { IsSeatOf self.now seat.old }
        requires other { IsSeatOf self.now other × (held other ≡ []) }
        ensures seat { IsSeatOf self.now seat.new × (held seat.new ≡ held seat.old) }
        ensures shares { shares seat.new ≡ shares seat.old + shares other }
    {
        let TurnSeat { seat: spent } = other;
        self.table.shared.join_seat::<Both>(&mut seat.seat, spent);
    }

    /// All values in order, each fitting its mark. A seat with all shares shows that all other seats were joined. It
    /// takes no memory.
    pub fn close(self, seat: TurnSeat<T>) -> List<T>
        requires seat { IsSeatOf self seat }
        requires all { (shares seat ≡ 2 ^ 32) × (held seat ≡ []) }
        ensures { AllFit T.fits (marks self) result }
    {
        let Turns { table, room } = self;
        let TurnSeat { seat } = seat;
        let closed = table.close_with(seat);
        List::from_vec(emptied(closed, room.open()))
    }
}
