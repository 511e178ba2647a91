// The first messages of the links to one receiver, in order, so that the next one is found at once.
ghost use Rattle.std.specs.Prelude.{◌≡◌, [], ◌∷◌, ◌≤◌, ◌==◌, ◌&&◌, ◌||◌, not, true, false, length, IfOk, OnOk, OnErr};
ghost use Rattle.pm_mail.specs.Heads.{IsFalling, goes_before, is_in, place, same};
ghost use Rattle.pm_mail.specs.declared.heads.Head.{Head as TheHead};

use pm_base::{Memory, Stamp};
use std::alloc::Global;
use std::collections::BTreeMap;
use std::marker::Model;

/// The first message of a link: its moment, and the link's sender.
#[derive(Clone, Copy, Debug, PartialEq, Eq)]
pub struct Head {
    pub stamp: Stamp,
    pub from: u32,
}

/// Heads of one receiver's links, at least one. The one that is taken next stands last, where it goes without moving
/// the others.
#[derive(Drop)]
pub struct Heads {
    rows: Vec<Head>,
}

impl Model for Heads {
    ghost use Rattle.std.specs.Prelude.{◌<◌, List, length};
    ghost use Rattle.pm_mail.specs.declared.heads.Head.{Head};

    ghost Value = { List Head };

    ghost use Rattle.pm_mail.specs.Heads.{IsFalling};

    ghost view = { λ h. h.rows.items };

    ghost invariant = { λ h. IsFalling h.rows.items × (0 < length h.rows.items) };
}

impl Heads {
    // One head.
    pub fn one(alloc: Global, head: Head) -> Result<Heads, Memory>
        ensures { IfOk result (λ heads. heads ≡ head ∷ []) }
    {
        let mut rows = Vec::new(alloc);
        rows.push(head)?;
        Ok(Heads { rows })
    }

    // Says for callers that there is a head, and does nothing.
    pub fn never_empty(&self)
        ensures { (k : TheHead) × (is_in k self.now ≡ true) }
    {
        let _ = &self.rows;
    }

    // Whether there is one head alone.
    pub fn is_one(&self) -> bool
        ensures { result ≡ (length self.now == 1) }
    {
        self.rows.len() == 1
    }

    // The head that is taken next.
    pub fn next(&self) -> Head
        ensures there { is_in result self.now ≡ true }
        ensures least { (k : TheHead) → is_in k self.now ≡ true → goes_before k result ≡ false }
    {
        self.rows[self.rows.len() - 1]
    }

    // Puts a head in its place.
    pub fn add(&mut self, head: Head) -> Result<(), Memory>
        requires { is_in head self.old ≡ false }
        ensures ok { OnOk result ((k : TheHead) → is_in k self.new ≡ (same head k || is_in k self.old)) }
        ensures err { OnErr result (self.new ≡ self.old) }
    {
        let at = place(self.rows.as_slice(), head);
        self.rows.insert(at, head)?;
        Ok(())
    }

    // Takes a head away from among others.
    pub fn remove(&mut self, head: Head)
        requires there { is_in head self.old ≡ true }
        requires others { (length self.old == 1) ≡ false }
        ensures { (k : TheHead) → is_in k self.new ≡ (not (same head k) && is_in k self.old) }
    {
        let at = place(self.rows.as_slice(), head);
        self.rows.remove(at);
    }

    // Puts another head in the place of one: the memory of the one serves the other.
    pub fn replace(&mut self, head: Head, next: Head)
        requires there { is_in head self.old ≡ true }
        requires new { (not (same head next) && is_in next self.old) ≡ false }
        ensures { (k : TheHead) → is_in k self.new ≡ (same next k || (not (same head k) && is_in k self.old)) }
    {
        let gone = place(self.rows.as_slice(), head);
        self.rows.remove(gone);
        let at = place(self.rows.as_slice(), next);
        let _ = self.rows.insert(at, next);
    }
}

// How many heads stand in front of that one's place.
fn place(rows: &[Head], head: Head) -> usize
    requires { IsFalling rows.now }
    ensures within { result ≤ length rows.now }
    ensures value { result ≡ place head rows.now }
{
    rows.partition_point(|row| is_before(&head, row))
}

fn is_before(a: &Head, b: &Head) -> bool
    ensures { result ≡ goes_before a.now b.now }
{
    let earlier = a.stamp.is_before(&b.stamp);
    earlier || (!b.stamp.is_before(&a.stamp) && a.from < b.from)
}
