//! Which item a cell hears next.
ghost use Rattle.std.specs.Prelude.{◌≡◌, ℕ, true, false, IfSome, MatchOption, Some, None};
ghost use Rattle.pm_ends.specs.Ends.{AllGrew};
ghost use Rattle.pm_plan.specs.declared.plan.Plan.{Plan as ThePlan};
ghost use Rattle.pm_sim.specs.Ready.{kept_back};
ghost use Rattle.pm_sim.specs.Worlds.{process as place};
ghost use Rattle.pm_cell.specs.Cores.{holds_at, takes_at};
ghost use Rattle.pm_cell.specs.Helds.{IsProcessOf, made_of, state_of, view_of};
ghost use Rattle.pm_cell.specs.Turns.{ChoseNext, IsNext, IsSooner, TookNext, is_ready, stamp_at};

use crate::cell::Cell;
use pm_alp::Alp;
use pm_base::{Line, Stamp};
use pm_core::Process;
use pm_ends::{InEnds, Post, senders_rise};
use pm_message::Message;

// Above all clocks of a run: it makes far fewer deliveries.
const FAR: u64 = 1 << 63;

// An agent's process has room for the numbers of so many deliveries.
const MOST: u64 = 20_000_000;

// Whether a window keeps a message of an agent's process back: a Wake that it awaits and that isn't below the window.
fn keeps_back(alp: &Alp<'_>, window: Option<Line>, message: &Message) -> bool
    ensures { result ≡ kept_back window alp.now.agent.awaited message.now }
{
    match (window, message) {
        (Some(line), Message::Wake { num, stamp }) => alp.awaits(*num) && !line.is_past(*stamp),
        _ => false,
    }
}

// Whether a window keeps a message of a process back.
fn holds(process: &Process<'_>, window: Option<Line>, message: &Message) -> bool
    ensures { (p : ThePlan) (k : ℕ) → IsProcessOf p k process.now →
        result ≡ holds_at window (place p k) (state_of process.now) message.now }
{
    match process {
        Process::Clp(_) => false,
        Process::Alp(alp) => keeps_back(alp, window, message),
    }
}

// Whether a process takes a message from there.
fn takes(process: &Process<'_>, from: u32, message: &Message) -> bool
    ensures { (p : ThePlan) (k : ℕ) → IsProcessOf p k process.now →
        result ≡ takes_at p (place p k) (made_of process.now) (state_of process.now) from message.now }
{
    match process {
        Process::Clp(clp) => clp.takes(from, message),
        Process::Alp(alp) => alp.made() < MOST,
    }
}

// Looks at each end where nothing waits.
fn poll_all(inns: &mut InEnds)
    ensures { AllGrew inns.old inns.new }
{
    for at in 0..inns.len() {
        inns.poll(at);
    }
}

// The first item that may be delivered at a place: its moment.
#[derive(Clone, Copy)]
struct Front {
    at: usize,
    stamp: Stamp,
}

// The one that is heard first, of one at an earlier place and the item of that moment, if there is one: the one of the
// lesser moment.
fn sooner(next: Option<Front>, at: usize, stamp: Option<Stamp>) -> Option<Front>
    ensures some { IfSome result (IsSooner next at stamp) }
    ensures none { result ≡ None → (next ≡ None) × (stamp ≡ None) }
{
    match (next, stamp) {
        (next, None) => next,
        (None, Some(stamp)) => Some(Front { at, stamp }),
        (Some(front), Some(stamp)) => {
            if stamp.is_before(&front.stamp) {
                Some(Front { at, stamp })
            } else {
                Some(front)
            }
        }
    }
}

impl<'a> Cell<'a> {
    // Whether the item from there may be delivered.
    fn is_ready(&self, from: u32, post: &Post) -> bool
        requires { self.now.spoilt ≡ false }
        ensures { result ≡ is_ready (view_of self.now) from post.now }
    {
        post.clock < FAR
            && self.clock < FAR
            && !holds(&self.process, self.window, &post.message)
            && takes(&self.process, from, &post.message)
    }

    // The moment of the first item of the in-end at that place, where it may be delivered.
    fn ready_at(&self, at: usize) -> Option<Stamp>
        requires { self.now.spoilt ≡ false }
        ensures { result ≡ stamp_at at self.now }
    {
        let from = self.inns.from(at)?;
        let post = self.inns.first(at)?;
        if self.is_ready(from, post) {
            Some(post.message.stamp())
        } else {
            None
        }
    }

    // The place of the in-end whose first item is heard next: of those that may be delivered the one of the least
    // moment, at one moment the one of the least sender. It looks at the first item of each in-end.
    fn next_of_all(&self) -> Option<usize>
        requires { self.now.spoilt ≡ false }
        ensures { MatchOption result ((at : ℕ) → stamp_at at self.now ≡ None) (IsNext self.now) }
    {
        let mut next = None;
        for at in 0..self.inns.len() {
            next = sooner(next, at, self.ready_at(at));
        }
        match next {
            Some(front) => Some(front.at),
            None => None,
        }
    }

    // The place of the in-end that has the soonest of all first items, where that one may be delivered.
    fn soonest_ready(&self) -> Option<usize>
        requires { self.now.spoilt ≡ false }
        ensures { IfSome result (IsNext self.now) }
    {
        let at = self.inns.soonest()?;
        match self.ready_at(at) {
            Some(_) => Some(at),
            None => None,
        }
    }

    // The place of the in-end whose first item is heard next. It looks at each only where the soonest of all first items
    // may not be delivered: a window keeps it back, as it does at an agent alone, which has two in-ends at most.
    fn next_place(&self) -> Option<usize>
        requires { self.now.spoilt ≡ false }
        ensures { MatchOption result ((at : ℕ) → stamp_at at self.now ≡ None) (IsNext self.now) }
    {
        let at = self.inns.soonest()?;
        match self.ready_at(at) {
            Some(_) => Some(at),
            None => self.next_of_all(),
        }
    }

    // Looks at one in-end, the next in turn, and at all of them only where the soonest of all first items may not be
    // delivered then: the place of the in-end whose first item is heard next.
    fn look(&mut self) -> Option<usize>
        requires { self.old.spoilt ≡ false }
        ensures same { self.new ≡ record self.old { inns = self.new.inns } }
        ensures grew { AllGrew self.old.inns self.new.inns }
        ensures next { MatchOption result ((at : ℕ) → stamp_at at self.new ≡ None) (IsNext self.new) }
    {
        self.inns.poll_next();
        if let Some(at) = self.soonest_ready() {
            return Some(at);
        }
        poll_all(&mut self.inns);
        self.next_place()
    }

    // Takes the first item of the in-end at that place, which is the one that is heard next, and tells who sent it.
    fn take_at(&mut self, at: usize) -> Option<(u32, Post)>
        requires sound { self.old.spoilt ≡ false }
        requires next { IsNext self.old at }
        ensures same { self.new ≡ record self.old { inns = self.new.inns } }
        ensures item { MatchOption result ⊥ (λ r. TookNext at r.0 r.1 self.old self.new.inns) }
    {
        senders_rise(&self.inns);
        let from = self.inns.from(at)?;
        let post = self.inns.take(at)?;
        Some((from, post))
    }

    // Takes the item that is heard next, and tells who sent it: none where no first item of an in-end may be delivered,
    // for which it looks at each in-end.
    pub(crate) fn take_next(&mut self) -> Option<(u32, Post)>
        requires { self.old.spoilt ≡ false }
        ensures same { self.new ≡ record self.old { inns = self.new.inns } }
        ensures item { MatchOption result
            (AllGrew self.old.inns self.new.inns × ((at : ℕ) → stamp_at at self.new ≡ None))
            (λ r. ChoseNext r.0 r.1 self.old self.new.inns) }
    {
        let at = self.look()?;
        self.take_at(at)
    }
}
