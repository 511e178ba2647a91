// Epochs in which any worker takes any station, one at a time.
ghost use Rattle.std.specs.Prelude.{◌≡◌, ◌+◌, ◌^◌, ◌<◌, ◌≤◌, true, false, [], All, Any, IsTrue, ◌↔◌, map, length, vec_len, IfOk};
ghost use Rattle.std.specs.Vec.{vec_capacity};
ghost use Rattle.pm_turn.specs.Rule.{AllFit};
ghost use Rattle.pm_turn.specs.Seats.{marks, shares};
ghost use Rattle.pm_workers.specs.Shares.{share};
ghost use Rattle.pm_workers.specs.Epochs.{Moved, AtEach, told_by};
ghost use Rattle.pm_workers.specs.Posts.{HaveShares};
ghost use Rattle.pm_workers.specs.Seats.{IsIdle};

use crate::counting::told_sum;
use crate::last::finish;
use crate::plan::Plan;
use crate::post::Post;
use crate::seats::{Player, Reach, spread};
use crate::{Count, Station};
use pm_base::{List, Memory};
use pm_io::Gate;
use pm_turn::{TurnSeat, Turns};
use std::alloc::Global;
use std::thread::Threads;

// Each station with its share.
fn with_shares<S: Station + Drop>(
    alloc: Global,
    plan: &Plan,
    stations: Vec<S>,
) -> Result<Vec<Post<S>>, Memory>
    requires { vec_len stations ≡ plan.now.count }
    ensures stations { IfOk result (λ v. map (λ p. p.station) v.items ≡ stations.items) }
    ensures shares { IfOk result (λ v. HaveShares plan.now.quota plan.now.count v.items) }
{
    let mut posts = Vec::with_capacity(alloc, plan.count)?;
    for station in stations {
        let left = plan.share(posts.len());
        posts.push_reserved(Post { station, left });
    }
    Ok(posts)
}

// The stations alone, put into a list that has room for them.
fn without_shares<S: Station + Drop>(posts: Vec<Post<S>>, room: Vec<S>) -> Vec<S>
    requires { (vec_len room ≡ 0) × (vec_len posts ≤ vec_capacity room) }
    ensures { result.items ≡ map (λ p. p.station) posts.items }
{
    let mut stations = room;
    for post in posts {
        let Post { station, left: _ } = post;
        stations.push_reserved(station);
    }
    stations
}

// All workers' rounds. The calling thread is worker 0.
fn run_turns<R: Threads + Sync, T: Player + Drop, G: Gate + Sync>(
    rt: &R,
    alloc: Global,
    gate: &G,
    workers: u32,
    reach: Reach,
    turns: Turns<T>,
    seat: TurnSeat<T>,
) -> List<T>
    requires seat { IsIdle turns seat × (shares seat ≡ 2 ^ 32) }
    requires workers { 0 < workers }
    requires range { (0 < reach.count) × (reach.apart ≤ reach.count) × (reach.count ≡ length (marks turns)) }
    ensures { AllFit T.Marked.fits (marks turns) result }
{
    let seat = spread(rt, alloc, gate, 0, 0, workers - 1, reach, &turns, seat);
    turns.close(seat)
}

// All workers' rounds over the stations. The list that is answered is made before the first turn.
fn run_stations<R: Threads + Sync, S: Station + Drop, G: Gate + Sync>(
    rt: &R,
    alloc: Global,
    gate: &G,
    plan: &Plan,
    workers: u32,
    stations: Vec<S>,
) -> Result<Vec<S>, Memory>
    requires workers { 0 < workers }
    requires count { (0 < vec_len stations) × (vec_len stations < 2 ^ 32) × (vec_len stations ≡ plan.now.count) }
    ensures { IfOk result (λ v. AtEach (λ i. Moved S.story S.follows (share plan.now.quota plan.now.count i))
        stations.items v.items) }
{
    let room = Vec::with_capacity(alloc, plan.count)?;
    let count = plan.count as u32;
    let reach = Reach {
        count,
        apart: count.div_ceil(workers),
        quota: plan.quota,
    };
    let posts = with_shares(alloc, plan, stations)?;
    let (turns, seat) = Turns::new(alloc, List::from_vec(posts))?;
    let posts = run_turns(rt, alloc, gate, workers, reach, turns, seat);
    Ok(without_shares(posts.into_vec(), room))
}

// All workers' rounds, and how many deliveries they made.
fn run_counted<R: Threads + Sync, S: Station + Drop, G: Gate + Sync>(
    rt: &R,
    alloc: Global,
    gate: &G,
    plan: &Plan,
    workers: u32,
    stations: Vec<S>,
) -> Result<(Vec<S>, u64), Memory>
    requires workers { 0 < workers }
    requires count { (0 < vec_len stations) × (vec_len stations < 2 ^ 32) × (vec_len stations ≡ plan.now.count) }
    ensures order { IfOk result (λ r. AtEach (λ i x y. S.follows y x) stations.items r.0.items) }
    ensures made { IfOk result (λ r. told_by S.story stations.items + r.1 ≡ told_by S.story r.0.items) }
    ensures most { IfOk result (λ r. r.1 ≤ plan.now.quota) }
{
    let _quota = plan.quota;
    let before = told_sum(stations.as_slice());
    let stations = run_stations(rt, alloc, gate, plan, workers, stations)?;
    let made = told_sum(stations.as_slice()).wrapping_sub(before);
    Ok((stations, made))
}

/// An epoch of at most `quota` deliveries, by workers that take turns at all stations. It may wait for the workers. The
/// memory that it takes of its own is taken before the first turn; after `Memory` the stations are dropped. Where no
/// thread can be made, the calling thread does the work.
///
/// The quota is divided: the i-th of n stations, counted from 0, has `quota / n` deliveries as its share, and one more
/// where i is below the remainder. A worker tries each station in a round, from a place of its own on, goes on at once
/// where another worker has it, and gives it one turn where its share isn't used up. It ends after a turn that met want
/// of memory, after a round without a delivery, and after `quota` rounds. Where the workers made no delivery and spoilt
/// no station, the calling thread gives each station one turn, in order, until one delivers or is spoilt. The gate is
/// asked before each turn, the calling thread as worker 0.
pub fn epoch_turns<R: Threads + Sync, S: Station + Drop, G: Gate + Sync>(
    rt: &R,
    alloc: Global,
    stations: List<S>,
    workers: u32,
    quota: u64,
    gate: &G,
) -> Result<(List<S>, Count), Memory>
    requires workers { 1 ≤ workers }
    requires some { (0 < length stations) × (length stations < 2 ^ 32) }
    ensures order { IfOk result (λ r. AtEach (λ i x y. S.follows y x) stations r.0) }
    ensures made { IfOk result (λ r. told_by S.story stations + r.1.made ≡ told_by S.story r.0) }
    ensures most { IfOk result (λ r. r.1.made ≤ quota) }
    ensures memory { IfOk result (λ r. IsTrue r.1.memory ↔ Any (λ s. S.is_spoilt s ≡ true) r.0) }
    ensures idle { IfOk result (λ r. 1 ≤ quota → r.1.memory ≡ false → r.1.made ≡ 0 → All S.idle r.0) }
{
    let plan = Plan {
        quota,
        count: stations.len(),
    };
    let (mut stations, made) = run_counted(rt, alloc, gate, &plan, workers, stations.into_vec())?;
    let count = finish(alloc, gate, quota, made, stations.as_mut_slice());
    Ok((List::from_vec(stations), count))
}
