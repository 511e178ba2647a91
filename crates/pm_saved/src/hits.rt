// The hits of one sense, in order of variable.
ghost use Rattle.std.specs.Prelude.{◌≡◌, ◌≤◌, ◌++◌, [], drop, is_some, length, not, slice_get, IfOk, OnOk, OnErr};
ghost use Rattle.pm_saved.specs.Inner.{HitsRise, kept_for, only, place_of, same_hit};
ghost use Rattle.pm_saved.specs.Senses.{add_kept, answer, answers, hits_eq, kept_hit, kept_turn, shown_before};

use crate::kept::{KeptHit, KeptSense};
use pm_base::{Hit, List, Memory, Value};
use std::alloc::Global;

// How many hits come before those of this variable.
fn place_of(hits: &[KeptHit], var: u32) -> usize
    requires { HitsRise hits.now }
    ensures bound { result ≤ length hits.now }
    ensures place { result ≡ place_of var hits.now }
{
    hits.partition_point(|k| k.var < var)
}

fn hit_at(hits: &[KeptHit], at: usize) -> Option<KeptHit>
    ensures { result ≡ slice_get hits.now at }
{
    hits.get(at).copied()
}

// The hit, where it is of this variable.
fn only(hit: Option<KeptHit>, var: u32) -> Option<KeptHit>
    ensures { result ≡ only var hit }
{
    match hit {
        Some(k) => if k.var == var { Some(k) } else { None },
        None => None,
    }
}

fn is_at(hits: &[KeptHit], at: usize, var: u32) -> bool
    ensures { result ≡ is_some (only var (slice_get hits.now at)) }
{
    only(hit_at(hits, at), var).is_some()
}

// What is kept for the variable.
fn kept_for(hits: &[KeptHit], var: u32) -> Option<KeptHit>
    requires { HitsRise hits.now }
    ensures { result ≡ kept_for var hits.now }
{
    only(hit_at(hits, place_of(hits, var)), var)
}

// The turn of the hit that is kept for the variable, 0 where none is.
pub fn turn_of(hits: &[KeptHit], var: u32) -> u64
    requires { HitsRise hits.now }
    ensures { result ≡ kept_turn var hits.now }
{
    match kept_for(hits, var) {
        Some(k) => k.turn,
        None => 0,
    }
}

// The hit that is kept for the variable.
pub fn hit_of(hits: &[KeptHit], var: u32) -> Option<Value>
    requires { HitsRise hits.now }
    ensures { result ≡ kept_hit var hits.now }
{
    match kept_for(hits, var) {
        Some(k) => k.hit,
        None => None,
    }
}

fn is_same_hit(a: Option<Value>, b: Option<Value>) -> bool
    ensures { result ≡ same_hit a b }
{
    match (a, b) {
        (Some(v), Some(w)) => v.x == w.x && v.y == w.y,
        (None, None) => true,
        _ => false,
    }
}

// Whether a hit, once it is kept, changes the answer.
pub fn changes(hits: &[KeptHit], hit: KeptHit) -> bool
    requires { HitsRise hits.now }
    ensures { result ≡ not (hits_eq (answer (add_kept hit hits.now)) (answer hits.now)) }
{
    !is_same_hit(hit.hit, hit_of(hits, hit.var))
}

// Keeps a hit in its place.
pub fn keep(hits: &mut List<KeptHit>, hit: KeptHit) -> Result<(), Memory>
    requires { HitsRise hits.old }
    ensures ok { OnOk result (hits.new ≡ add_kept hit hits.old) }
    ensures err { OnErr result (hits.new ≡ hits.old) }
    ensures rise { HitsRise hits.new }
{
    let at = place_of(hits.as_slice(), hit.var);
    if is_at(hits.as_slice(), at, hit.var) {
        hits.set(at, hit);
    } else {
        hits.insert(at, hit)?;
    }
    Ok(())
}

// Adds a hit where it tells a value.
fn show(all: &mut List<Hit>, var: u32, hit: Option<Value>) -> Result<(), Memory>
    ensures { OnOk result (all.new ≡ all.old ++ shown_before var hit []) }
{
    match hit {
        Some(value) => all.push(Hit { var, value }),
        None => Ok(()),
    }
}

fn answer(alloc: Global, hits: &[KeptHit]) -> Result<List<Hit>, Memory>
    ensures { IfOk result (λ l. l ≡ answer hits.now) }
{
    let mut all = List::new(alloc);
    for k in hits {
        show(&mut all, k.var, k.hit)?;
    }
    Ok(all)
}

// The senses from this place on.
fn from_place(senses: &[KeptSense], at: usize) -> &[KeptSense]
    ensures { result.now ≡ drop at senses.now }
{
    if at < senses.len() {
        &senses[at..]
    } else {
        &[]
    }
}

// Adds to the answers of the first of these senses, as many as there are, those of the others, in order.
pub fn answer_on(
    alloc: Global,
    senses: &[KeptSense],
    all: &mut List<List<Hit>>,
) -> Result<(), Memory>
    ensures { OnOk result (all.new ≡ all.old ++ drop (length all.old) (answers senses.now)) }
{
    let others = from_place(senses, all.len());
    for sense in others {
        all.push(answer(alloc, sense.hits.as_slice())?)?;
    }
    Ok(())
}
