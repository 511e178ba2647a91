// Epochs in which each worker has its stations on loan.
ghost use Rattle.std.specs.Prelude.{◌≡◌, ◌+◌, ◌^◌, ◌<◌, ◌≤◌, true, false, All, Any, IsTrue, ◌↔◌, length};
ghost use Rattle.pm_workers.specs.Shares.{share};
ghost use Rattle.pm_workers.specs.Epochs.{Moved, AtEach, told_by};

use crate::counting::told_sum;
use crate::last::finish;
use crate::plan::Plan;
use crate::rounds::run_part;
use crate::{Count, Station};
use pm_base::List;
use pm_io::Gate;
use std::alloc::Global;
use std::thread;
use std::thread::Threads;

// All workers' rounds. The calling thread has the last stations, and is worker 0.
fn run_all<R: Threads + Sync, S: Station, G: Gate + Sync>(
    rt: &R,
    alloc: Global,
    gate: &G,
    plan: &Plan,
    workers: u32,
    stations: &mut [S],
)
    requires workers { 0 < workers }
    requires count { (0 < plan.now.count) × (plan.now.count < 2 ^ 32) × (length stations.old ≡ plan.now.count) }
    ensures { AtEach (λ i. Moved S.story S.follows (share plan.now.quota plan.now.count i)) stations.old stations.new }
{
    let size = stations.len().div_ceil(workers as usize);
    let work = move |start: usize, part: &mut [S]|
        requires { (0 < size) × (start + length part.now ≤ plan.now.count) × (plan.now.count < 2 ^ 32) }
        ensures { AtEach (λ i. Moved S.story S.follows (share plan.entry.now.quota plan.entry.now.count (start + i)))
            part.entry.now part.exit.now }
    {
        let worker = plan.count.saturating_sub(start + 1) / size;
        run_part(alloc, gate, plan, worker as u32, start, part)
    };
    thread::for_each_chunk_mut(rt, stations, size, &work);
}

// All workers' rounds, and how many deliveries they made.
fn run_counted<R: Threads + Sync, S: Station, G: Gate + Sync>(
    rt: &R,
    alloc: Global,
    gate: &G,
    plan: &Plan,
    workers: u32,
    stations: &mut [S],
) -> u64
    requires workers { 0 < workers }
    requires count { (0 < plan.now.count) × (plan.now.count < 2 ^ 32) × (length stations.old ≡ plan.now.count) }
    ensures moved { AtEach (λ i x y. S.follows y x) stations.old stations.new }
    ensures made { told_by S.story stations.old + result ≡ told_by S.story stations.new }
    ensures most { result ≤ plan.now.quota }
{
    let _quota = plan.quota;
    let before = told_sum(stations);
    run_all(rt, alloc, gate, plan, workers, stations);
    told_sum(stations).wrapping_sub(before)
}

/// An epoch of at most `quota` deliveries, by workers that have their stations on loan: each has as many stations that
/// follow one another. It takes no memory of its own, and may wait for the workers. Where no thread can be made, the
/// calling thread does the work.
///
/// The quota is divided: the i-th of n stations, counted from 0, has `quota / n` deliveries as its share, and one more
/// where i is below the remainder. A worker gives its stations one turn each in a round, as long as their shares last.
/// It ends after a turn that met want of memory and after a round without a delivery. Where the workers made no
/// delivery and spoilt no station, the calling thread gives each station one turn, in order, until one delivers or is
/// spoilt. The gate is asked before each turn, the calling thread as worker 0.
pub fn epoch_loans<R: Threads + Sync, S: Station, G: Gate + Sync>(
    rt: &R,
    alloc: Global,
    stations: &mut List<S>,
    workers: u32,
    quota: u64,
    gate: &G,
) -> Count
    requires workers { 1 ≤ workers }
    requires some { (0 < length stations.old) × (length stations.old < 2 ^ 32) }
    ensures order { AtEach (λ i x y. S.follows y x) stations.old stations.new }
    ensures made { told_by S.story stations.old + result.made ≡ told_by S.story stations.new }
    ensures most { result.made ≤ quota }
    ensures memory { IsTrue result.memory ↔ Any (λ s. S.is_spoilt s ≡ true) stations.new }
    ensures idle { 1 ≤ quota → result.memory ≡ false → result.made ≡ 0 → All S.idle stations.new }
{
    let plan = Plan {
        quota,
        count: stations.len(),
    };
    let stations = stations.as_mut_slice();
    let made = run_counted(rt, alloc, gate, &plan, workers, stations);
    finish(alloc, gate, quota, made, stations)
}
