// The kept steps in a row, where one sense or the last step changes.
ghost use Rattle.std.specs.Prelude.{◌≡◌, ℕ, ◌+◌, ◌<◌, ◌≤◌, ◌^◌, ◌++◌, ◌∷◌, [], is_some, length, take, true, None, Some};
ghost use Rattle.std.specs.Prelude.{IfSome, OnOk, OnErr};
ghost use Rattle.std.specs.Option.{option_copied};
ghost use Rattle.pm_saved.specs.Inner.{HitsRise, NumbersRise, in_step, step_place, steps_of};
ghost use Rattle.pm_saved.specs.Senses.{add_kept};
ghost use Rattle.pm_saved.specs.Spots.{AtSpot, Spot as TheSpot, find, spot_of, step_at};
ghost use Rattle.pm_saved.specs.Steps.{AtLast, hand_out, opened};

use crate::held::{Held, ask_in, cut_in, end_in, finish_in, is_ready, keep_in, place_in, sense_of};
use crate::kept::{KeptAct, KeptHit, KeptSense};
use crate::spot::Spot;
use pm_base::{Line, Memory, Num, Stamp};
use std::alloc::Global;
use std::collections::VecDeque;

// How many steps' senses all asked under lesser numbers.
fn step_place(steps: &VecDeque<Held>, seq: u64) -> usize
    requires { (m : ℕ) × NumbersRise 0 steps.now.items m }
    ensures bound { result ≤ length steps.now.items }
    ensures place { result ≡ step_place seq steps.now.items }
{
    steps.partition_point(|h| h.next <= seq)
}

fn at_step(step: usize, sense: Option<usize>) -> Option<Spot>
    ensures { result ≡ in_step step sense }
{
    match sense {
        Some(sense) => Some(Spot { step, sense }),
        None => None,
    }
}

// The place of the sense of this number.
pub fn find_in(steps: &VecDeque<Held>, num: Num) -> Option<Spot>
    requires { (m : ℕ) × NumbersRise 0 steps.now.items m }
    ensures place { find num (steps_of steps.now.items) ≡ spot_of result (steps_of steps.now.items) }
    ensures variant { is_some (find num (steps_of steps.now.items)) ≡ is_some result }
{
    let step = step_place(steps, num.seq);
    match steps.get(step) {
        Some(held) => at_step(step, place_in(held.senses.as_slice(), num)),
        None => None,
    }
}

// The sense at this place.
pub fn sense_in<'a>(steps: &'a VecDeque<Held>, at: Spot) -> Option<&'a KeptSense>
    requires { (m : ℕ) × NumbersRise 0 steps.now.items m }
    ensures there { AtSpot (steps_of steps.now.items) at (λ s. option_copied result ≡ Some s.sense) }
    ensures rise { IfSome result (λ r. HitsRise r.now.hits) }
{
    match steps.get(at.step) {
        Some(held) => sense_of(held, at.sense),
        None => None,
    }
}

// Adds a step that has sensed nothing yet.
pub fn begin_last(
    alloc: Global,
    steps: &mut VecDeque<Held>,
    next: u64,
    stamp: Stamp,
) -> Result<(), Memory>
    ensures ok { OnOk result (steps_of steps.new.items ≡ steps_of steps.old.items ++ opened stamp ∷ []) }
    ensures err { OnErr result (steps.new.items ≡ steps.old.items) }
    ensures rise { NumbersRise 0 steps.old.items next → NumbersRise 0 steps.new.items next }
{
    let held = Held {
        next,
        stamp,
        senses: Vec::new(alloc),
        act: None,
    };
    steps.push_back(held)?;
    Ok(())
}

// The sense at this place becomes complete.
pub fn finish_at(steps: &mut VecDeque<Held>, at: Spot)
    ensures step { AtSpot (steps_of steps.old.items) at (λ s. steps_of steps.new.items ≡ s.front ++
        record s.here { senses = s.before ++ record s.sense { complete = true } ∷ s.later } ∷ s.rest) }
    ensures rise { (m : ℕ) → NumbersRise 0 steps.old.items m → NumbersRise 0 steps.new.items m }
{
    if let Some(held) = steps.get_mut(at.step) {
        finish_in(held, at.sense);
    }
}

// Keeps a hit of the sense at this place.
pub fn keep_at(steps: &mut VecDeque<Held>, at: Spot, hit: KeptHit) -> Result<(), Memory>
    requires { (m : ℕ) × NumbersRise 0 steps.old.items m }
    ensures step { OnOk result (AtSpot (steps_of steps.old.items) at (λ s. steps_of steps.new.items ≡ s.front ++
        record s.here { senses = s.before ++ record s.sense { hits = add_kept hit s.sense.hits } ∷ s.later } ∷
        s.rest)) }
    ensures same { OnErr result (steps_of steps.new.items ≡ steps_of steps.old.items) }
    ensures rise { (m : ℕ) → NumbersRise 0 steps.old.items m → NumbersRise 0 steps.new.items m }
{
    if let Some(held) = steps.get_mut(at.step) {
        keep_in(held, at.sense, hit)?;
    }
    Ok(())
}

// Drops the steps after this one.
fn keep_first(steps: &mut VecDeque<Held>, at: usize)
    ensures { steps.new.items ≡ take (at + 1) steps.old.items }
{
    if at < steps.len() {
        steps.truncate(at + 1);
    }
}

// Drops what came after the sense in its step.
fn cut_step(steps: &mut VecDeque<Held>, at: Spot)
    ensures step { (s : TheSpot) → step_at at.step at.sense (steps_of steps.old.items) ≡ Some s →
        steps_of steps.new.items ≡ s.front ++ record s.here { senses = s.before ++ s.sense ∷ []; act = None } ∷ s.rest }
    ensures rise { (m : ℕ) → NumbersRise 0 steps.old.items m → NumbersRise 0 steps.new.items m }
{
    if let Some(held) = steps.get_mut(at.step) {
        cut_in(held, at.sense);
    }
}

// Drops all that came after the sense at this place.
pub fn cut_at(steps: &mut VecDeque<Held>, at: Spot)
    ensures step { AtSpot (steps_of steps.old.items) at (λ s. steps_of steps.new.items ≡ s.front ++
        record s.here { senses = s.before ++ s.sense ∷ []; act = None } ∷ []) }
    ensures rise { (m : ℕ) → NumbersRise 0 steps.old.items m → NumbersRise 0 steps.new.items m }
{
    keep_first(steps, at.step);
    cut_step(steps, at);
}

// Adds a sense of the last step.
pub fn ask_last(steps: &mut VecDeque<Held>, sense: KeptSense) -> Result<(), Memory>
    requires { sense.num.seq + 1 < 2 ^ 64 }
    ensures ok { OnOk result (AtLast (steps_of steps.old.items) (λ front last. steps_of steps.new.items ≡ front ++
        record last { senses = last.senses ++ sense ∷ [] } ∷ [])) }
    ensures err { OnErr result (steps_of steps.new.items ≡ steps_of steps.old.items) }
    ensures rise { (m : ℕ) → NumbersRise 0 steps.old.items m → m ≤ sense.num.seq → HitsRise sense.hits →
        OnOk result (NumbersRise 0 steps.new.items (sense.num.seq + 1)) }
    ensures kept { (m : ℕ) → NumbersRise 0 steps.old.items m → OnErr result (NumbersRise 0 steps.new.items m) }
{
    if let Some(last) = steps.back_mut() {
        ask_in(last, sense)?;
    }
    Ok(())
}

// The last step ends.
pub fn act_last(steps: &mut VecDeque<Held>, act: KeptAct)
    ensures step { AtLast (steps_of steps.old.items) (λ front last. steps_of steps.new.items ≡ front ++
        record last { act = Some act } ∷ []) }
    ensures rise { (m : ℕ) → NumbersRise 0 steps.old.items m → NumbersRise 0 steps.new.items m }
{
    if let Some(last) = steps.back_mut() {
        end_in(last, act);
    }
}

// How many steps, from the first on, are below the line and have acted.
pub fn ready_in(steps: &VecDeque<Held>, line: Line) -> usize
    ensures { result ≡ length (hand_out line (steps_of steps.now.items)) }
{
    for at in 0..steps.len() {
        if !is_ready(&steps[at], line) {
            return at;
        }
    }
    steps.len()
}
