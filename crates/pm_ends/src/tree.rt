//! Which of the in-ends has the first item: a tree over their places, in which below place k stand places 2k + 1 and
//! 2k + 2. At each place it keeps the number of an end that stands there or below, whose first item comes no later than
//! those of all the others there. Where one end's first item changes, the places above it alone are looked at again.
ghost use Rattle.std.specs.Prelude.{◌≡◌, ◌+◌, ◌*◌, ◌<◌, get_or, length, map};
ghost use Rattle.pm_ends.specs.Sides.{inn_of};
ghost use Rattle.pm_ends.specs.Trees.{IsTree, IsTreeBut, IsTreeTo, better, leads_at, moment_at, winner};

use crate::in_ends::{InSide, front_at};
use pm_base::Stamp;

// The moment of the first item that waits at that place.
pub(crate) fn moment(ends: &[InSide], at: usize) -> Option<Stamp>
    ensures { result ≡ moment_at (map inn_of ends.now) at }
{
    match front_at(ends, at) {
        Some(post) => Some(post.message.stamp()),
        None => None,
    }
}

// The end that the tree keeps at its top.
pub(crate) fn top(best: &[usize]) -> usize
    ensures { result ≡ get_or best.now 0 0 }
{
    match best.get(0) {
        Some(at) => *at,
        None => 0,
    }
}

// Whether the first item of the one place comes no later than that of the other: by moment, then by place.
fn leads(ends: &[InSide], one: usize, other: usize) -> bool
    ensures { result ≡ leads_at (map inn_of ends.now) one other }
{
    match (moment(ends, one), moment(ends, other)) {
        (_, None) => true,
        (None, Some(_)) => false,
        (Some(a), Some(b)) => a.is_before(&b) || (!b.is_before(&a) && one <= other),
    }
}

// Of an end and what the tree keeps at a place, if there is such a place, the one whose first item comes first.
fn better(ends: &[InSide], best: &[usize], one: usize, at: usize) -> usize
    ensures { result ≡ better (map inn_of ends.now) best.now one at }
{
    let Some(other) = best.get(at) else {
        return one;
    };
    if leads(ends, one, *other) {
        one
    } else {
        *other
    }
}

// Of the end at a place and what the tree keeps right below, the one whose first item comes first.
fn winner(ends: &[InSide], best: &[usize], at: usize) -> usize
    requires { at < length best.now }
    ensures { result ≡ winner (map inn_of ends.now) best.now at }
{
    let one = better(ends, best, at, 2 * at + 1);
    better(ends, best, one, 2 * at + 2)
}

// Puts the tree right at a place.
fn put(ends: &[InSide], best: &mut Vec<usize>, at: usize)
    requires at { at < length best.old.items }
    requires but { IsTreeBut (map inn_of ends.now) best.old.items at }
    ensures long { length best.new.items ≡ length best.old.items }
    ensures tree { IsTreeTo (map inn_of ends.now) best.new.items at }
{
    let first = winner(ends, best.as_slice(), at);
    best[at] = first;
}

// Puts the tree right where the first item at one place is another now.
pub(crate) fn mend(ends: &[InSide], best: &mut Vec<usize>, at: usize)
    requires at { at < length best.old.items }
    requires but { IsTreeBut (map inn_of ends.now) best.old.items at }
    ensures { IsTree (map inn_of ends.now) best.new.items }
{
    let mut at = at;
    put(ends, best, at);
    while at > 0 {
        at = (at - 1) / 2;
        put(ends, best, at);
    }
}
