//! The ends that a process sends over.
ghost use Rattle.std.specs.Prelude.{◌≡◌, ◌<◌, ◌≤◌, [], ◌∷◌, ◌++◌, ℕ, OnOk, OnErr, length, get_or, map};
ghost use Rattle.std.specs.List.{AllByRecursion};
ghost use Rattle.pm_links.specs.Links.{out_link, sent};
ghost use Rattle.pm_ends.specs.Ends.{sent_to, tos};
ghost use Rattle.pm_ends.specs.Numbers.{AreRising};
ghost use Rattle.pm_ends.specs.Sides.{IsPlaceOf, out_of};

use crate::post::Post;
use pm_base::Memory;
use pm_links::OutEnd;
use std::alloc::Global;
use std::marker::Model;

// An end, and to whom it sends.
#[derive(Drop)]
pub(crate) struct OutSide {
    pub to: u32,
    pub end: OutEnd<Post>,
}

/// The ends that a process sends over, in order of the receivers' numbers, of which none stands twice. Contracts see of
/// each end to whom it sends, the link, and what was sent.
#[derive(Drop)]
pub struct OutEnds {
    pub(crate) ends: Vec<OutSide>,
}

impl Model for OutEnds {
    ghost use Rattle.std.specs.Prelude.{List, map};
    ghost use Rattle.pm_ends.specs.Ends.{Out, tos};
    ghost use Rattle.pm_ends.specs.Numbers.{AreRising};
    ghost use Rattle.pm_ends.specs.Sides.{out_of};

    ghost Value = { List Out };

    ghost view = { λ e. map out_of e.ends.items };

    ghost invariant = { λ e. AreRising (tos (map out_of e.ends.items)) };
}

impl OutEnds {
    /// No end. It takes no memory.
    pub fn new(alloc: Global) -> OutEnds
        ensures { result ≡ [] }
    {
        OutEnds {
            ends: Vec::new(alloc),
        }
    }

    /// One more end, whose receiver's number is above all others'. After `Memory` the ends are as they were.
    pub fn add(&mut self, to: u32, end: OutEnd<Post>) -> Result<(), Memory>
        requires above { AllByRecursion (λ k. k < to) (tos self.old) }
        ensures ok { OnOk result (self.new ≡
            self.old ++ record { to = to; link = out_link end; sent = sent end } ∷ []) }
        ensures err { OnErr result (self.new ≡ self.old) }
    {
        self.ends.push(OutSide { to, end })?;
        Ok(())
    }

    /// How many ends there are. It takes no memory.
    pub fn len(&self) -> usize
        ensures { result ≡ length self.now }
    {
        self.ends.len()
    }

    /// Sends an item to that process; where no end goes there, it is dropped. After `Memory` nothing was sent.
    pub fn send(&mut self, to: u32, post: Post) -> Result<(), Memory>
        ensures ok { OnOk result (self.new ≡ sent_to to post self.old) }
        ensures err { OnErr result (self.new ≡ self.old) }
    {
        let at = place(self.ends.as_slice(), to);
        let Some(side) = self.ends.get_mut(at) else {
            return Ok(());
        };
        if side.to != to {
            return Ok(());
        }
        side.end.send(post)
    }
}

// How many of the ends go to processes below that one.
fn place(ends: &[OutSide], to: u32) -> usize
    requires { AreRising (tos (map out_of ends.now)) }
    ensures { IsPlaceOf to ends.now result }
{
    ends.partition_point(|side| side.to < to)
}

/// A law of the type: the receivers' numbers rise.
pub fn receivers_rise(one: &OutEnds)
    ensures { AreRising (tos one.now) }
{
    let _ = &one.ends;
}
