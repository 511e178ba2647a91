// A worker's rounds over the stations that it has on loan.
ghost use Rattle.std.specs.Prelude.{◌≡◌, ◌+◌, ◌<◌, ◌≤◌, true, length};
ghost use Rattle.pm_workers.specs.Turns.{grown, is_memory};
ghost use Rattle.pm_workers.specs.Shares.{share, turns_at};
ghost use Rattle.pm_workers.specs.Epochs.{Moved, AtEach};

use crate::plan::Plan;
use crate::{Station, Turned};
use pm_io::Gate;
use std::alloc::Global;

// One turn of a station, before which the gate is asked.
pub(crate) fn one_turn<S: Station, G: Gate>(
    alloc: Global,
    gate: &G,
    worker: u32,
    it: &mut S,
) -> Turned
    ensures moved { Moved S.story S.follows (grown result) it.old it.new }
    ensures story { length (S.story it.new) ≡ length (S.story it.old) + grown result }
    ensures idle { result ≡ Turned.Nothing → S.idle it.new }
    ensures spoilt { S.is_spoilt it.new ≡ is_memory result }
{
    gate.at(worker, it.number());
    it.turn(alloc)
}

// A turn, where the station's share lets it have one in this round.
fn round_turn<S: Station, G: Gate>(
    alloc: Global,
    gate: &G,
    plan: &Plan,
    worker: u32,
    number: u64,
    at: usize,
    it: &mut S,
) -> Turned
    requires { at < plan.now.count }
    ensures moved { Moved S.story S.follows (turns_at number (share plan.now.quota plan.now.count at)) it.old it.new }
{
    if number < plan.share(at) {
        return one_turn(alloc, gate, worker, it);
    }
    Turned::Nothing
}

// What a round over some stations did.
#[derive(Clone, Copy)]
struct Round {
    delivered: bool,
    memory: bool,
}

// One round: each station that may still make a delivery gets one turn, until one answers Memory.
fn go_round<S: Station, G: Gate>(
    alloc: Global,
    gate: &G,
    plan: &Plan,
    worker: u32,
    number: u64,
    start: usize,
    part: &mut [S],
) -> Round
    requires { start + length part.old ≤ plan.now.count }
    ensures { AtEach (λ i. Moved S.story S.follows
        (turns_at number (share plan.now.quota plan.now.count (start + i)))) part.old part.new }
{
    let mut delivered = false;
    for k in 0..part.len() {
        let turned = round_turn(alloc, gate, plan, worker, number, start + k, &mut part[k]);
        if matches!(turned, Turned::Memory) {
            return Round {
                delivered,
                memory: true,
            };
        }
        delivered |= matches!(turned, Turned::Delivered);
    }
    Round {
        delivered,
        memory: false,
    }
}

// A worker's rounds over its stations, the first of which has this index.
pub(crate) fn run_part<S: Station, G: Gate>(
    alloc: Global,
    gate: &G,
    plan: &Plan,
    worker: u32,
    start: usize,
    part: &mut [S],
)
    requires { start + length part.old ≤ plan.now.count }
    ensures { AtEach (λ i. Moved S.story S.follows (share plan.now.quota plan.now.count (start + i)))
        part.old part.new }
{
    for number in 0..plan.quota {
        let round = go_round(alloc, gate, plan, worker, number, start, part);
        if round.memory || !round.delivered {
            return;
        }
    }
}
