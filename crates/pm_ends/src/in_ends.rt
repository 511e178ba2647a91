//! The ends that a process receives from.
ghost use Rattle.std.specs.Prelude.{◌≡◌, ◌<◌, ◌^◌, [], ◌∷◌, ◌++◌, ℕ, false, MatchOption, OnOk, OnErr, None, List as Seq};
ghost use Rattle.std.specs.Prelude.{length, map, slice_get};
ghost use Rattle.std.specs.List.{AllByRecursion};
ghost use Rattle.std.specs.Option.{option_copied, option_map};
ghost use Rattle.pm_base.specs.Stamps.{least_line_of, or_lower};
ghost use Rattle.pm_base.specs.declared.stamp.Stamp.{Stamp as TheStamp};
ghost use Rattle.pm_links.specs.Links.{in_link, received, waiting};
ghost use Rattle.pm_ends.specs.Ends.{AllGrew, Grew, Inn as TheInn, Took, first_at, first_of, froms, post_stamp};
ghost use Rattle.pm_ends.specs.Ends.{stamps_in};
ghost use Rattle.pm_ends.specs.Numbers.{AreRising, nth};
ghost use Rattle.pm_ends.specs.Sides.{HandedAt, inn_of};
ghost use Rattle.pm_ends.specs.Trees.{IsSoonest, moment_at};

use crate::post::Post;
use crate::tree::{mend, moment, top};
use pm_base::{Line, Memory};
use pm_links::InEnd;
use std::alloc::Global;
use std::marker::Model;

// An end, who sends there, and the place of the other end among the sender's.
#[derive(Drop)]
pub(crate) struct InSide {
    pub from: u32,
    pub slot: u32,
    pub end: InEnd<Post>,
}

/// The ends that a process receives from, in order of the senders' numbers, of which none stands twice. Contracts see
/// of each end who sends there, the link, what was handed out, and what waits.
#[derive(Drop)]
pub struct InEnds {
    pub(crate) ends: Vec<InSide>,
    // The tree over the places that keeps which end has the first item.
    pub(crate) best: Vec<usize>,
    // The place that `poll_next` looks at next.
    turn: usize,
}

impl Model for InEnds {
    ghost use Rattle.std.specs.Prelude.{List, map};
    ghost use Rattle.pm_ends.specs.Ends.{Inn, froms};
    ghost use Rattle.pm_ends.specs.Numbers.{AreRising};
    ghost use Rattle.pm_ends.specs.Sides.{inn_of};
    ghost use Rattle.pm_ends.specs.Trees.{IsTree};

    ghost Value = { List Inn };

    ghost view = { λ e. map inn_of e.ends.items };

    ghost invariant = { λ e. AreRising (froms (map inn_of e.ends.items)) × IsTree (map inn_of e.ends.items) e.best.items };
}

impl InEnds {
    /// No end. It takes no memory.
    pub fn new(alloc: Global) -> InEnds
        ensures { result ≡ [] }
    {
        InEnds {
            ends: Vec::new(alloc),
            best: Vec::new(alloc),
            turn: 0,
        }
    }

    /// One more end, whose sender's number is above all others'. After `Memory` the ends are as they were.
    pub fn add(&mut self, from: u32, slot: u32, end: InEnd<Post>) -> Result<(), Memory>
        requires above { AllByRecursion (λ k. k < from) (froms self.old) }
        ensures ok { OnOk result (self.new ≡ self.old ++ record {
          from = from;
          slot = slot;
          link = in_link end;
          received = received end;
          waiting = waiting end;
        } ∷ []) }
        ensures err { OnErr result (self.new ≡ self.old) }
    {
        let place = self.ends.len();
        self.best.reserve(1)?;
        self.ends.push(InSide { from, slot, end })?;
        self.best.push_reserved(place);
        mend(self.ends.as_slice(), &mut self.best, place);
        Ok(())
    }

    /// How many ends there are. It takes no memory.
    pub fn len(&self) -> usize
        ensures { result ≡ length self.now }
    {
        self.ends.len()
    }

    /// Who sends to the end at that place, counted from 0. It takes no memory.
    pub fn from(&self, at: usize) -> Option<u32>
        ensures { result ≡ option_map (λ (x : TheInn). x.from) (nth self.now at) }
    {
        match self.ends.get(at) {
            Some(side) => Some(side.from),
            None => None,
        }
    }

    /// Sees whether something has come to the end at that place, where nothing waits there. It takes no memory.
    pub fn poll(&mut self, at: usize)
        ensures { AllGrew self.old self.new }
    {
        let Some(side) = self.ends.get_mut(at) else {
            return;
        };
        if !look(side) {
            return;
        }
        mend(self.ends.as_slice(), &mut self.best, at);
    }

    /// Looks at one end, the next in turn: sees whether something has come there, where nothing waits. After as many
    /// calls as there are ends each was looked at. It takes no memory.
    pub fn poll_next(&mut self)
        ensures { AllGrew self.old self.new }
    {
        let at = next_turn(self.turn, self.ends.len());
        self.turn = at + 1;
        self.poll(at);
    }

    /// The place of the soonest end: of all first items that wait its first has the least moment, at one moment it is
    /// the first end. None where nothing waits at any end. What came to an end is seen by `poll`, `poll_next` and
    /// `take`. It takes no memory, and looks at no other end.
    pub fn soonest(&self) -> Option<usize>
        ensures { MatchOption result ((i : ℕ) → moment_at self.now i ≡ None) (IsSoonest self.now) }
    {
        let first = top(self.best.as_slice());
        match moment(self.ends.as_slice(), first) {
            Some(_) => Some(first),
            None => None,
        }
    }

    /// The first item that waits at the end at that place, lent. It takes no memory.
    pub fn first(&self, at: usize) -> Option<&Post>
        ensures { option_copied result ≡ first_at (nth self.now at) }
    {
        front_at(self.ends.as_slice(), at)
    }

    /// Takes the first item at that place, where one waits, and sees whether more has come there. It takes no memory.
    pub fn take(&mut self, at: usize) -> Option<Post>
        ensures item { MatchOption result (first_at (nth self.old at) ≡ None) (λ x. Took at x self.old self.new) }
        ensures none { result ≡ None → AllGrew self.old self.new }
    {
        let Some(side) = self.ends.get_mut(at) else {
            return None;
        };
        let post = take_next(side);
        mend(self.ends.as_slice(), &mut self.best, at);
        post
    }

    /// The least moment of all that waits, or the end where nothing does. It takes no memory.
    pub fn least(&self) -> Line
        ensures { result ≡ least_line_of (stamps_in self.now) }
    {
        let mut least = Line::End;
        let ends = self.ends.as_slice();
        for side in ends {
            least = least_at(side, least);
        }
        least
    }
}

// The end at that place.
fn side_at(ends: &[InSide], at: usize) -> Option<&InSide>
    ensures { option_copied result ≡ slice_get ends.now at }
{
    ends.get(at)
}

// The first item that waits at the end at that place.
pub(crate) fn front_at(ends: &[InSide], at: usize) -> Option<&Post>
    ensures { option_copied result ≡ first_at (nth (map inn_of ends.now) at) }
{
    match side_at(ends, at) {
        Some(side) => side.end.item(0),
        None => None,
    }
}

// The place that is looked at in this turn, of so many.
fn next_turn(turn: usize, count: usize) -> usize
    requires { count < 2 ^ 63 }
    ensures { result < 2 ^ 63 }
{
    if turn < count { turn } else { 0 }
}

// Sees whether something has come to that end where nothing waits, and tells whether its first item is another now.
pub(crate) fn look(side: &mut InSide) -> bool
    ensures grew { Grew (inn_of side.old) (inn_of side.new) }
    ensures same { result ≡ false → first_of (waiting side.new.end) ≡ first_of (waiting side.old.end) }
{
    if side.end.item(0).is_some() {
        return false;
    }
    side.end.first();
    side.end.item(0).is_some()
}

// Takes the next item of that end, and sees whether more has come there.
fn take_next(side: &mut InSide) -> Option<Post>
    ensures item { MatchOption result (waiting side.old.end ≡ [])
        (λ x. HandedAt x (inn_of side.old) (inn_of side.new)) }
    ensures none { result ≡ None → Grew (inn_of side.old) (inn_of side.new) }
{
    let post = side.end.next();
    side.end.first();
    post
}

// The least of a line and the moments of all that waits at that end.
fn least_at(side: &InSide, least: Line) -> Line
    ensures { (ss : Seq TheStamp) → least ≡ least_line_of ss →
        result ≡ least_line_of (ss ++ map post_stamp (waiting side.now.end)) }
{
    let mut least = least;
    let mut at = 0;
    while let Some(post) = side.end.item(at) {
        least = lower_of(post, least);
        at += 1;
    }
    least
}

// The lesser of a message's moment and a line.
fn lower_of(post: &Post, line: Line) -> Line
    ensures { result ≡ or_lower (post_stamp post.now) line }
{
    let stamp = post.message.stamp();
    if line.is_past(stamp) {
        Line::At(stamp)
    } else {
        line
    }
}

/// A law of the type: the senders' numbers rise.
pub fn senders_rise(one: &InEnds)
    ensures { AreRising (froms one.now) }
{
    let _ = &one.ends;
}
