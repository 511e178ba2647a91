// What can be asked of kept steps.
ghost use Rattle.std.specs.Prelude.{◌≡◌, ◌≤◌, ◌∷◌, ◌++◌, [], drop, false, is_some, length, not, take, None, Some};
ghost use Rattle.std.specs.Prelude.{IfOk, IfSome, OnOk};
ghost use Rattle.std.specs.Option.{option_copied};
ghost use Rattle.pm_saved.specs.Inner.{HitsRise, steps_of};
ghost use Rattle.pm_saved.specs.Senses.{add_kept, answer, answers, hits_eq, kept_hit, kept_turn};
ghost use Rattle.pm_saved.specs.Spots.{AtSpot};
ghost use Rattle.pm_saved.specs.Steps.{AtLast, HasGrown, regs_after, withdrawn};

use crate::held::{Held, withdraw};
use crate::kept::{KeptHit, KeptSense};
use crate::steps::sense_in;
use crate::{Saved, Spot, hits};
use pm_base::{Hit, List, Memory, Query, Stamp, Value};
use pm_message::Message;
use std::alloc::Global;
use std::collections::VecDeque;

impl Saved {
    // The sense at this place.
    fn sense(&self, at: Spot) -> Option<&KeptSense>
        ensures there { AtSpot self.now.steps at (λ s. option_copied result ≡ Some s.sense) }
        ensures rise { IfSome result (λ r. HitsRise r.now.hits) }
    {
        sense_in(&self.steps, at)
    }

    /// What the sense at this place asks for. It takes no memory.
    pub fn query(&self, at: Spot) -> Query
        ensures { AtSpot self.now.steps at (λ s. result ≡ s.sense.query) }
    {
        match self.sense(at) {
            Some(sense) => sense.query,
            None => Query::One { var: 0 },
        }
    }

    /// Whether the sense at this place is complete. It takes no memory.
    pub fn complete(&self, at: Spot) -> bool
        ensures { AtSpot self.now.steps at (λ s. result ≡ s.sense.complete) }
    {
        match self.sense(at) {
            Some(sense) => sense.complete,
            None => false,
        }
    }

    /// The turn that the sense at this place keeps for the variable, 0 where none is kept. It takes no memory.
    pub fn turn_of(&self, at: Spot, var: u32) -> u64
        ensures { AtSpot self.now.steps at (λ s. result ≡ kept_turn var s.sense.hits) }
    {
        match self.sense(at) {
            Some(sense) => hits::turn_of(sense.hits.as_slice(), var),
            None => 0,
        }
    }

    /// The hit that the sense at this place keeps for the variable: none exactly where none is kept, or the kept one
    /// tells no value. It takes no memory.
    pub fn hit_of(&self, at: Spot, var: u32) -> Option<Value>
        ensures { AtSpot self.now.steps at (λ s. result ≡ kept_hit var s.sense.hits) }
    {
        match self.sense(at) {
            Some(sense) => hits::hit_of(sense.hits.as_slice(), var),
            None => None,
        }
    }

    /// Whether a hit, once it is kept, changes the answer of the sense at this place. It takes no memory.
    pub fn changes(&self, at: Spot, hit: KeptHit) -> bool
        ensures { AtSpot self.now.steps at (λ s. result ≡
            not (hits_eq (answer (add_kept hit s.sense.hits)) (answer s.sense.hits))) }
    {
        match self.sense(at) {
            Some(sense) => hits::changes(sense.hits.as_slice(), hit),
            None => false,
        }
    }

    /// The last step's stamp: none exactly where no step is kept. It takes no memory.
    pub fn last(&self) -> Option<Stamp>
        ensures step { AtLast self.now.steps (λ front last. result ≡ Some last.stamp) }
        ensures none { self.now.steps ≡ [] → result ≡ None }
    {
        match self.steps.back() {
            Some(held) => Some(held.stamp),
            None => None,
        }
    }

    /// Whether there is a last step and it has acted. It takes no memory.
    pub fn acted(&self) -> bool
        ensures step { AtLast self.now.steps (λ front last. result ≡ is_some last.act) }
        ensures none { self.now.steps ≡ [] → result ≡ false }
    {
        match self.steps.back() {
            Some(held) => held.act.is_some(),
            None => false,
        }
    }

    /// The registers before the last step, or before the kept steps where there is none. It takes no memory.
    pub fn regs(&self) -> &List<i64>
        ensures step { AtLast self.now.steps (λ front last. result.now ≡ regs_after self.now.base front) }
        ensures none { self.now.steps ≡ [] → result.now ≡ self.now.base }
    {
        last_regs(&self.base, &self.steps, self.steps.len().saturating_sub(1))
    }

    /// The answers of the last step's senses, in order. A sense that isn't complete answers what it was given so far.
    pub fn answers(&self, alloc: Global) -> Result<List<List<Hit>>, Memory>
        ensures { IfOk result (λ l. AtLast self.now.steps (λ front last. l ≡ answers last.senses)) }
    {
        let mut all = List::new(alloc);
        self.answer_on(alloc, &mut all)?;
        Ok(all)
    }

    /// Adds to the answers of the last step's first senses, as many as the list has, those of its other senses, in
    /// order. After `Memory` some of them may have been added.
    pub fn answer_on(&self, alloc: Global, all: &mut List<List<Hit>>) -> Result<(), Memory>
        ensures { OnOk result (AtLast self.now.steps (λ front last.
            all.new ≡ all.old ++ drop (length all.old) (answers last.senses))) }
    {
        match self.steps.back() {
            Some(held) => hits::answer_on(alloc, held.senses.as_slice(), all),
            None => Ok(()),
        }
    }

    /// Sends the anti-messages of the writes of that place's step and of all later steps, in order of step and
    /// variable. After `Memory` some of them may have been sent.
    pub fn withdrawn(&self, at: Spot, out: &mut List<Message>) -> Result<(), Memory>
        ensures ok { OnOk result (AtSpot self.now.steps at (λ s. out.new ≡ out.old ++ withdrawn (s.here ∷ s.rest))) }
        ensures grown { HasGrown out.old out.new }
    {
        withdraw_from(&self.steps, at.step, out)
    }
}

// The registers after the first n steps. The last of them has acted wherever the step is that of a rule, so no more
// than one step is looked at.
fn last_regs<'a>(base: &'a List<i64>, steps: &'a VecDeque<Held>, n: usize) -> &'a List<i64>
    requires { n ≤ length steps.now.items }
    ensures { result.now ≡ regs_after base.now (steps_of (take n steps.now.items)) }
{
    let mut left = n;
    while left > 0 {
        left -= 1;
        if let Some(act) = &steps[left].act {
            return &act.regs;
        }
    }
    base
}

// Sends the anti-messages of the writes of the steps from this one on.
fn withdraw_from(steps: &VecDeque<Held>, from: usize, out: &mut List<Message>) -> Result<(), Memory>
    ensures ok { OnOk result (out.new ≡ out.old ++ withdrawn (steps_of (drop from steps.now.items))) }
    ensures grown { HasGrown out.old out.new }
{
    for at in from..steps.len() {
        withdraw(&steps[at], out)?;
    }
    Ok(())
}
