// The workers of an epoch by turns, each with a seat of its own. The type of the values is a parameter here: the
// toolchain shares no turns between threads where that type rests on another bound, as a post does on its station's.
ghost use Rattle.std.specs.Prelude.{◌≡◌, ◌<◌, ◌≤◌, ◌+◌, ◌^◌, [], length};
ghost use denote.Param.Send.{IsSync, IsSend};
ghost use Rattle.pm_turn.specs.Seats.{marks, shares};
ghost use Rattle.pm_workers.specs.Seats.{IsIdle, SameIdle};

use crate::Turned;
use pm_io::Gate;
use pm_turn::{Fit, TurnSeat, Turns};
use std::alloc::Global;
use std::thread::{Threads, join};

// What can have a turn, and still fits its mark afterwards.
pub trait Player: Fit + Send {
    fn go<G: Gate>(&mut self, alloc: Global, gate: &G, worker: u32) -> Turned
        ensures { (mark : Self) → Self.Marked.fits mark self.old → Self.Marked.fits mark self.new };
}

// How many turns there are, how far apart the workers begin their rounds, and how many rounds they make at most.
#[derive(Clone, Copy)]
pub(crate) struct Reach {
    pub(crate) count: u32,
    pub(crate) apart: u32,
    pub(crate) quota: u64,
}

// The turn that comes so many places behind this one, round about.
fn around(from: u32, by: u32, count: u32) -> u32
    requires { (from < count) × (by ≤ count) }
    ensures { result < count }
{
    let left = count - from;
    if by < left { from + by } else { by - left }
}

// One try of turn i.
fn turn_at<T: Player + Drop, G: Gate>(
    alloc: Global,
    gate: &G,
    worker: u32,
    turns: &Turns<T>,
    seat: &mut TurnSeat<T>,
    i: u32,
) -> Turned
    requires seat { IsIdle turns.now seat.old }
    requires range { i < length (marks turns.now) }
    ensures { SameIdle turns.now seat.old seat.new }
{
    let Some(mut value) = turns.try_take(seat, i) else {
        return Turned::Nothing;
    };
    let turned = value.go(alloc, gate, worker);
    turns.give(seat, i, value);
    turned
}

// One round over all turns from `start` on, until one answers Memory. It answers whether there may be another round:
// this one made a delivery, and didn't meet want of memory.
fn go_round<T: Player + Drop, G: Gate>(
    alloc: Global,
    gate: &G,
    worker: u32,
    start: u32,
    count: u32,
    turns: &Turns<T>,
    seat: &mut TurnSeat<T>,
) -> bool
    requires seat { IsIdle turns.now seat.old }
    requires range { (start < count) × (count ≡ length (marks turns.now)) }
    ensures { SameIdle turns.now seat.old seat.new }
{
    let mut delivered = false;
    for k in 0..count {
        let turned = turn_at(alloc, gate, worker, turns, seat, around(start, k, count));
        if matches!(turned, Turned::Memory) {
            return false;
        }
        delivered |= matches!(turned, Turned::Delivered);
    }
    delivered
}

// A worker's rounds.
fn work<T: Player + Drop, G: Gate>(
    alloc: Global,
    gate: &G,
    worker: u32,
    start: u32,
    reach: Reach,
    turns: &Turns<T>,
    seat: TurnSeat<T>,
) -> TurnSeat<T>
    requires seat { IsIdle turns.now seat }
    requires range { (start < reach.count) × (reach.count ≡ length (marks turns.now)) }
    ensures { SameIdle turns.now seat result }
{
    let mut seat = seat;
    for _ in 0..reach.quota {
        if !go_round(alloc, gate, worker, start, reach.count, turns, &mut seat) {
            return seat;
        }
    }
    seat
}

// The workers from `first` on, each in a thread of its own, where one can be made.
pub(crate) fn spread<R: Threads + Sync, T: Player + Drop, G: Gate + Sync>(
    rt: &R,
    alloc: Global,
    gate: &G,
    first: u32,
    start: u32,
    others: u32,
    reach: Reach,
    turns: &Turns<T>,
    seat: TurnSeat<T>,
) -> TurnSeat<T>
    requires seat { IsIdle turns.now seat × (others + 1 ≤ shares seat) }
    requires workers { first + others < 2 ^ 32 }
    requires range { (start < reach.count) × (reach.apart ≤ reach.count) × (reach.count ≡ length (marks turns.now)) }
    ensures { SameIdle turns.now seat result }
{
    if others == 0 {
        return work(alloc, gate, first, start, reach, turns, seat);
    }
    let mut seat = seat;
    let mine = turns.split(&mut seat);
    let next = first + 1;
    let there = around(start, reach.apart, reach.count);
    let more = others - 1;
    let (rest, mine) = join(
        rt,
        move || -> TurnSeat<T>
            requires { IsSync R.row × IsSync G.row × IsSend T.row
                × IsIdle turns.now seat × (more + 1 ≤ shares seat) × (next + more < 2 ^ 32)
                × (there < reach.count) × (reach.apart ≤ reach.count) × (reach.count ≡ length (marks turns.now)) }
            ensures { SameIdle turns.entry.now seat result }
        { spread(rt, alloc, gate, next, there, more, reach, turns, seat) },
        move || -> TurnSeat<T>
            requires { IsIdle turns.now mine × (start < reach.count) × (reach.count ≡ length (marks turns.now)) }
            ensures { SameIdle turns.entry.now mine result }
        { work(alloc, gate, first, start, reach, turns, mine) },
    );
    let mut rest = rest;
    turns.join(&mut rest, mine);
    rest
}
