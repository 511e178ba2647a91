// The heads of all receivers: each receiver's, found by its number.
ghost use Rattle.std.specs.Prelude.{◌≡◌, ℕ, ◌<◌, ◌≤◌, ◌==◌, ◌&&◌, ◌||◌, [], not, true, false, length};
ghost use Rattle.std.specs.Prelude.{IfSome, IfNone, OnOk, OnErr};
ghost use Rattle.pm_mail.specs.Heads.{goes_before, heads_at, is_in, same};
ghost use Rattle.pm_mail.specs.declared.heads.Head.{Head as TheHead};

use crate::heads::{Head, Heads};
use pm_base::Memory;
use std::alloc::Global;
use std::collections::BTreeMap;

/// The head that a receiver takes next.
pub fn next_of(heads: &BTreeMap<u32, Heads>, to: u32) -> Option<Head>
    ensures there { IfSome result (λ h. is_in h (heads_at to heads.now) ≡ true) }
    ensures least { IfSome result (λ h. (k : TheHead) →
        is_in k (heads_at to heads.now) ≡ true → goes_before k h ≡ false) }
    ensures none { IfNone result (heads_at to heads.now ≡ []) }
{
    match heads.get(&to) {
        Some(row) => Some(row.next()),
        None => None,
    }
}

/// A receiver has one more head. After `Memory` it hasn't.
pub fn enter(
    heads: &mut BTreeMap<u32, Heads>,
    alloc: Global,
    to: u32,
    head: Head,
) -> Result<(), Memory>
    requires { is_in head (heads_at to heads.old) ≡ false }
    ensures ok { OnOk result ((t : ℕ) (k : TheHead) → is_in k (heads_at t heads.new) ≡
        ((to == t && same head k) || is_in k (heads_at t heads.old))) }
    ensures err { OnErr result ((t : ℕ) (k : TheHead) → is_in k (heads_at t heads.new) ≡
        is_in k (heads_at t heads.old)) }
{
    match heads.get_mut(&to) {
        Some(row) => row.add(head),
        None => open(heads, alloc, to, head),
    }
}

// A receiver has its first head.
fn open(heads: &mut BTreeMap<u32, Heads>, alloc: Global, to: u32, head: Head) -> Result<(), Memory>
    requires { heads_at to heads.old ≡ [] }
    ensures ok { OnOk result ((t : ℕ) (k : TheHead) → is_in k (heads_at t heads.new) ≡
        ((to == t && same head k) || is_in k (heads_at t heads.old))) }
    ensures err { OnErr result ((t : ℕ) (k : TheHead) → is_in k (heads_at t heads.new) ≡
        is_in k (heads_at t heads.old)) }
{
    let row = Heads::one(alloc, head)?;
    heads.insert(to, row)?;
    Ok(())
}

/// The least receiver from that number on that has a head.
pub fn first_from(heads: &BTreeMap<u32, Heads>, start: u32) -> Option<u32>
    ensures from { IfSome result (λ to. start ≤ to) }
    ensures there { IfSome result (λ to. (k : TheHead) × (is_in k (heads_at to heads.now) ≡ true)) }
    ensures least { IfSome result (λ to. (t : ℕ) → start ≤ t → t < to → heads_at t heads.now ≡ []) }
    ensures none { IfNone result ((t : ℕ) → start ≤ t → heads_at t heads.now ≡ []) }
{
    match heads.range(start..).next() {
        Some((to, row)) => {
            row.never_empty();
            Some(*to)
        }
        None => None,
    }
}

/// A receiver has that head no more.
pub fn leave(heads: &mut BTreeMap<u32, Heads>, to: u32, head: Head)
    requires { is_in head (heads_at to heads.old) ≡ true }
    ensures { (t : ℕ) (k : TheHead) → is_in k (heads_at t heads.new) ≡
        (not (to == t && same head k) && is_in k (heads_at t heads.old)) }
{
    if has_one(heads, to) {
        heads.remove(&to);
    } else {
        take_out(heads, to, head);
    }
}

// Whether a receiver has one head alone.
fn has_one(heads: &BTreeMap<u32, Heads>, to: u32) -> bool
    ensures { result ≡ (length (heads_at to heads.now) == 1) }
{
    match heads.get(&to) {
        Some(row) => row.is_one(),
        None => false,
    }
}

// A receiver has that head no more, but others.
fn take_out(heads: &mut BTreeMap<u32, Heads>, to: u32, head: Head)
    requires there { is_in head (heads_at to heads.old) ≡ true }
    requires others { (length (heads_at to heads.old) == 1) ≡ false }
    ensures { (t : ℕ) (k : TheHead) → is_in k (heads_at t heads.new) ≡
        (not (to == t && same head k) && is_in k (heads_at t heads.old)) }
{
    if let Some(row) = heads.get_mut(&to) {
        row.remove(head);
    }
}

/// A receiver has another head in place of one. It takes no memory.
pub fn follow(heads: &mut BTreeMap<u32, Heads>, to: u32, head: Head, next: Head)
    requires there { is_in head (heads_at to heads.old) ≡ true }
    requires new { (not (same head next) && is_in next (heads_at to heads.old)) ≡ false }
    ensures { (t : ℕ) (k : TheHead) → is_in k (heads_at t heads.new) ≡
        ((to == t && same next k) || (not (to == t && same head k) && is_in k (heads_at t heads.old))) }
{
    if let Some(row) = heads.get_mut(&to) {
        row.replace(head, next);
    }
}
