// The end that sends.
ghost use Rattle.std.specs.Prelude.{◌≡◌, ◌<◌};
ghost use Rattle.rtrb.specs.Ring as ring;

use crate::in_end::InEnd;
use pm_base::Memory;
use rtrb::{Producer, PushError};
use std::alloc::Global;
use std::collections::VecDeque;

/// The end of a link that sends. Contracts see which link it is of, and the list of all that it sent.
#[derive(Drop)]
pub struct OutEnd<T> {
    pub(crate) pipe: Producer<T>,
    // What the ring had no room for. The ring gets it before anything that is sent later.
    backlog: VecDeque<T>,
    ghost wide: { 0 < ring.producer_capacity pipe },
}

impl<T: Drop> OutEnd<T> {
    ghost use Rattle.std.specs.Prelude.{◌≡◌, ◌<◌, ◌≤◌, [], ◌∷◌, ◌++◌, ◌↔◌, length, IsTrue, OnOk, OnErr};
    ghost use Rattle.std.specs.VecDeque.{deque_len};
    ghost use Rattle.rtrb.specs.Ring as ring;
    ghost use Rattle.pm_links.specs.Links.{sent, out_link, SentSame, IsLink, Grew};

    pub(crate) fn new(alloc: Global, pipe: Producer<T>) -> OutEnd<T>
        requires { (0 < ring.producer_capacity pipe) × (ring.sent pipe ≡ []) }
        ensures { (result.pipe ≡ pipe) × (sent result ≡ []) }
    {
        OutEnd {
            pipe,
            backlog: VecDeque::new(alloc),
        }
    }

    /// Sends an item: to the ring, or where the ring is full behind all that it had no room for. After `Memory` nothing
    /// was sent, and the item is dropped.
    pub fn send(&mut self, item: T) -> Result<(), Memory>
        ensures link { out_link self.new ≡ out_link self.old }
        ensures ok { OnOk result (sent self.new ≡ sent self.old ++ item ∷ []) }
        ensures err { OnErr result (sent self.new ≡ sent self.old) }
    {
        self.flush();
        if !self.backlog.is_empty() {
            self.backlog.push_back(item)?;
            return Ok(());
        }
        match self.pipe.push(item) {
            Ok(()) => Ok(()),
            Err(PushError::Full(back)) => {
                self.backlog.push_back(back)?;
                Ok(())
            }
        }
    }

    pub(crate) fn has_backlog(&self) -> bool
        ensures { IsTrue result ↔ (0 < deque_len self.now.backlog) }
    {
        !self.backlog.is_empty()
    }

    // Moves what the ring has room for out of the backlog, if there is one.
    fn flush(&mut self)
        ensures { SentSame self.old self.new }
    {
        if !self.backlog.is_empty() {
            self.pipe.slots();
            self.push_known();
        }
    }

    // Moves items of the backlog into the ring, which is empty.
    pub(crate) fn refill(&mut self, inn: &mut InEnd<T>)
        requires { IsLink self.old inn.old × (ring.received inn.old.pipe ≡ ring.sent self.old.pipe) }
        ensures same { SentSame self.old self.new }
        ensures inn { Grew inn.old inn.new }
        ensures fewer { 0 < deque_len self.old.backlog → deque_len self.new.backlog < deque_len self.old.backlog }
    {
        self.pipe.slots_beside(&mut inn.pipe);
        self.push_known();
    }

    // Moves items of the backlog into the slots that are known to be free.
    fn push_known(&mut self)
        ensures same { SentSame self.old self.new }
        ensures fewer { 0 < ring.known_free self.old.pipe →
            0 < deque_len self.old.backlog →
            deque_len self.new.backlog < deque_len self.old.backlog }
    {
        while self.pipe.cached_slots() > 0 {
            let Some(x) = self.backlog.pop_front() else {
                return;
            };
            self.pipe.push_reserved(x);
        }
    }
}
