// The end that receives.
ghost use Rattle.std.specs.Prelude.{◌<◌};
ghost use Rattle.std.specs.Coded.{coded_list, Coded-set};
ghost use Rattle.std.specs.VecDeque.{deque_capacity};
ghost use Rattle.rtrb.specs.Ring as ring;
ghost use Rattle.pm_links.specs.Waits.{EndsIn};

use crate::out_end::OutEnd;
use pm_base::Memory;
use rtrb::Consumer;
use std::alloc::Global;
use std::collections::VecDeque;

/// The end of a link that receives. Contracts see which link it is of, the list of all that was handed out, and what
/// waits. What was handed out and what waits are together a list that only grows at its end.
#[derive(Drop)]
pub struct InEnd<T> {
    pub(crate) pipe: Consumer<T>,
    // What was taken out of the ring and not handed out yet. It has room for an item at least, so that `first` can put
    // one there without memory.
    drawn: VecDeque<T>,
    ghost kept: { EndsIn (ring.received pipe) drawn.items } by { Coded-set (coded_list T.code) _ _ },
    ghost room: { 0 < deque_capacity drawn },
}

impl<T: Drop> InEnd<T> {
    ghost use Rattle.std.specs.Prelude.{◌≡◌, [], ◌++◌, ◌+◌, ◌<◌, ◌≤◌, length, IfOk, OnOk, OnSome, MatchOption, slice_get, ⊤};
    ghost use Rattle.std.specs.Option.{option_copied};
    ghost use Rattle.std.specs.Borrow.{sem};
    ghost use Rattle.std.specs.VecDeque.{deque_len, deque_capacity};
    ghost use mathlib.Core.Option.{none};
    ghost use denote.Follow.{follows_so};
    ghost use Rattle.rtrb.specs.Ring as ring;
    ghost use Rattle.pm_links.specs.contracts.in_end.InEnd.{the_row};
    ghost use Rattle.pm_links.specs.Links.{received, waiting, in_link, IsLink, SentSame, Grew, Handed, NothingWaits};

    pub(crate) fn new(alloc: Global, pipe: Consumer<T>) -> Result<InEnd<T>, Memory>
        requires { ring.received pipe ≡ [] }
        ensures { IfOk result (λ r. (r.pipe ≡ pipe) × (received r ≡ []) × (waiting r ≡ [])) }
    {
        let drawn = VecDeque::with_capacity(alloc, 1)?;
        Ok(InEnd { pipe, drawn })
    }

    /// The next item in order. It tries the ring where nothing waits, of which no clause speaks: what another thread
    /// has sent is known after `draw` alone. It takes no memory.
    pub fn next(&mut self) -> Option<T>
        ensures link { in_link self.new ≡ in_link self.old }
        ensures item { MatchOption result (NothingWaits self.old self.new) (λ x. Handed x self.old self.new) }
    {
        match self.drawn.pop_front() {
            Some(x) => Some(x),
            None => self.pipe.pop().ok(),
        }
    }

    /// The item of that index, counted from 0, of those that wait. It takes no memory.
    pub fn item(&self, i: usize) -> Option<&T>
        ensures value { option_copied result ≡ slice_get (waiting self.now) i }
        ensures within { OnSome result (i < length (waiting self.now)) }
    {
        self.drawn.get(i)
    }

    /// The item that `next` would answer, which is left waiting: the clause is of this end once the loan has ended. It
    /// tries the ring where nothing waits, and takes no memory.
    pub fn first(&mut self) -> Option<&T>
        ensures* after { sem 𝓛 (follows_so (the_row T.row) (the_row T.row) self.entry.ghost_name none (λ _ _. ⊤)
            (λ n. Grew self.entry.now n × (option_copied result ≡ slice_get (waiting n) 0))) }
    {
        self.look();
        self.drawn.get(0)
    }

    // Tries the ring where nothing waits.
    fn look(&mut self)
        ensures { Grew self.old self.new }
    {
        if self.drawn.is_empty() {
            if let Ok(x) = self.pipe.pop() {
                self.drawn.push_back_reserved(x);
            }
        }
    }

    // Takes all that the ring has.
    pub(crate) fn take_all(&mut self, out: &mut OutEnd<T>) -> Result<(), Memory>
        requires { IsLink out.old self.old }
        ensures out { SentSame out.old out.new }
        ensures backlog { (ring.sent out.new.pipe ≡ ring.sent out.old.pipe) × (out.new.backlog ≡ out.old.backlog) }
        ensures inn { Grew self.old self.new }
        ensures all { OnOk result (ring.received self.new.pipe ≡ ring.sent out.new.pipe) }
    {
        let count = self.pipe.slots_beside(&mut out.pipe);
        self.drawn.reserve(count)?;
        while self.pipe.cached_slots() > 0 {
            self.shift();
        }
        Ok(())
    }

    // Takes one item out of the ring.
    fn shift(&mut self)
        requires item { 0 < length (ring.known_items self.old.pipe) }
        requires room { deque_len self.old.drawn < deque_capacity self.old.drawn }
        ensures grew { Grew self.old self.new }
        ensures one { ring.received self.new.pipe ++ ring.known_items self.new.pipe ≡
            ring.received self.old.pipe ++ ring.known_items self.old.pipe }
        ensures count { deque_len self.new.drawn ≡ deque_len self.old.drawn + 1 }
        ensures left { length (ring.known_items self.old.pipe) ≡ length (ring.known_items self.new.pipe) + 1 }
        ensures capacity { deque_capacity self.new.drawn ≡ deque_capacity self.old.drawn }
    {
        let x = self.pipe.pop_known();
        self.drawn.push_back_reserved(x);
    }
}
