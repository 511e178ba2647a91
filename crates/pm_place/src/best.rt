// The best process for each variable, from how often it is accessed from where.
ghost use Rattle.std.specs.Prelude.{◌≡◌, ◌<◌, ◌≤◌, ◌^◌, ℕ, IfOk, OnOk, length};
ghost use Rattle.std.specs.List.{AllByRecursion};
ghost use Rattle.pm_place.specs.Bests.{HasBestOfEach, HasGrown, IsCheap};
ghost use Rattle.pm_place.specs.Tallies.{IsBest, cost_at, dot};

use crate::Placing;
use pm_base::{List, Memory};
use std::alloc::Global;

/// A process, and what a variable costs there.
#[derive(Clone, Copy)]
struct Spot {
    at: u32,
    cost: u64,
}

/// Each count times the edges that stand at its place, all added up.
#[tactic(auto, using(crate::proofs::Dots::dot_laws))]
fn dot(counts: &[u64], edges: &[u32]) -> u64
    requires { dot counts.now edges.now < 2 ^ 64 }
    ensures { result ≡ dot counts.now edges.now }
{
    let mut cost = 0;
    for (i, count) in counts.iter().enumerate() {
        let Some(far) = edges.get(i) else {
            return cost;
        };
        cost += *count * *far as u64;
    }
    cost
}

/// What these accesses cost where their variable is at that process.
fn cost_at(counts: &[u64], distances: &[List<u32>], clp: usize) -> u64
    requires there { clp < length distances.now }
    requires small { cost_at counts.now distances.now clp < 2 ^ 64 }
    ensures { result ≡ cost_at counts.now distances.now clp }
{
    dot(counts, distances[clp].as_slice())
}

/// The process at which these accesses cost least, and of several the first.
fn best(counts: &[u64], distances: &[List<u32>]) -> Spot
    requires some { 0 < length distances.now }
    requires few { length distances.now < 2 ^ 32 }
    requires small { (clp : ℕ) → clp < length distances.now → cost_at counts.now distances.now clp < 2 ^ 64 }
    ensures { IsBest counts.now distances.now result.at result.cost }
{
    let mut best = Spot {
        at: 0,
        cost: cost_at(counts, distances, 0),
    };
    for clp in 1..distances.len() {
        let cost = cost_at(counts, distances, clp);
        if cost < best.cost {
            best = Spot {
                at: clp as u32,
                cost,
            };
        }
    }
    best
}

/// The best process for one more variable.
fn add_best(placing: &mut Placing, counts: &[u64], distances: &[List<u32>]) -> Result<(), Memory>
    requires some { 0 < length distances.now }
    requires few { length distances.now < 2 ^ 32 }
    requires small { IsCheap distances.now counts.now }
    requires total { placing.old.total < 2 ^ 60 }
    ensures { OnOk result (HasGrown counts.now distances.now placing.old placing.new) }
{
    let best = best(counts, distances);
    placing.at.push(best.at)?;
    placing.costs.push(best.cost)?;
    placing.total += best.cost;
    Ok(())
}

/// The best process for each variable.
pub fn best_of_all(
    alloc: Global,
    rows: &[List<u64>],
    distances: &[List<u32>],
) -> Result<Placing, Memory>
    requires some { 0 < length distances.now }
    requires few { length distances.now < 2 ^ 32 }
    requires vars { length rows.now ≤ 4096 }
    requires small { AllByRecursion (IsCheap distances.now) rows.now }
    ensures { IfOk result (HasBestOfEach distances.now rows.now) }
{
    let mut placing = Placing {
        at: List::new(alloc),
        costs: List::new(alloc),
        total: 0,
    };
    for counts in rows {
        add_best(&mut placing, counts.as_slice(), distances)?;
    }
    Ok(placing)
}
