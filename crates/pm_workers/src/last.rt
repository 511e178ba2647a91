// The end of an epoch, on the calling thread alone.
ghost use Rattle.std.specs.Prelude.{◌≡◌, ◌+◌, ◌≤◌, true, All, Any, ◌⊎◌};
ghost use Rattle.pm_workers.specs.Turns.{grown};
ghost use Rattle.pm_workers.specs.Epochs.{AtEach, IsDone, told_by};

use crate::counting::any_spoilt;
use crate::rounds::one_turn;
use crate::{Count, Station, Turned};
use pm_io::Gate;
use std::alloc::Global;

// One turn each, in order, until one answers Delivered or Memory.
fn last_turns<S: Station, G: Gate>(alloc: Global, gate: &G, stations: &mut [S]) -> Turned
    ensures moved { AtEach (λ i x y. S.follows y x) stations.old stations.new }
    ensures told { told_by S.story stations.new ≡ told_by S.story stations.old + grown result }
    ensures idle { result ≡ Turned.Nothing → All S.idle stations.new }
    ensures spoilt { result ≡ Turned.Memory → Any (λ s. S.is_spoilt s ≡ true) stations.new }
{
    for k in 0..stations.len() {
        let turned = one_turn(alloc, gate, 0, &mut stations[k]);
        if !matches!(turned, Turned::Nothing) {
            return turned;
        }
    }
    Turned::Nothing
}

// The last turns, where the quota allows one and the workers neither made a delivery nor spoilt a station; and how many
// deliveries were made then in all.
fn run_last<S: Station, G: Gate>(
    alloc: Global,
    gate: &G,
    quota: u64,
    made: u64,
    stations: &mut [S],
) -> u64
    requires { made ≤ quota }
    ensures moved { AtEach (λ i x y. S.follows y x) stations.old stations.new }
    ensures made { told_by S.story stations.old + result ≡ told_by S.story stations.new + made }
    ensures most { result ≤ quota }
    ensures idle { 1 ≤ quota → result ≡ 0 →
        Any (λ s. S.is_spoilt s ≡ true) stations.new ⊎ All S.idle stations.new }
{
    if made > 0 || quota == 0 || any_spoilt(stations) {
        return made;
    }
    match last_turns(alloc, gate, stations) {
        Turned::Delivered => 1,
        Turned::Nothing | Turned::Memory => 0,
    }
}

// What the epoch comes to, of which the workers made so many deliveries.
pub(crate) fn finish<S: Station, G: Gate>(
    alloc: Global,
    gate: &G,
    quota: u64,
    made: u64,
    stations: &mut [S],
) -> Count
    requires { made ≤ quota }
    ensures { IsDone S.story S.follows S.idle S.is_spoilt quota made stations.old stations.new result }
{
    let made = run_last(alloc, gate, quota, made, stations);
    Count {
        made,
        memory: any_spoilt(stations),
    }
}
