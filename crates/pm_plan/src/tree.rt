ghost use Rattle.std.specs.Prelude.{◌≡◌, ◌<◌, ◌^◌, length, take, is_none};
ghost use Rattle.std.specs.List.{list_any};
ghost use Rattle.pm_plan.specs.Plans.{parents, is_lost, is_endless, is_off_tree, first_off_tree};
ghost use Rattle.pm_plan.specs.Trees.{parent};

use crate::ClpRow;

/// The number of the process above that one. None where it has none, or isn't there.
pub fn parent_of(clps: &[ClpRow], clp: u32) -> Option<u32>
    ensures { result ≡ parent (parents clps.now) clp }
{
    match clps.get(clp as usize) {
        Some(row) => row.parent,
        None => None,
    }
}

/// Whether the chain of parents from that process up never ends.
fn is_endless(clps: &[ClpRow], clp: u32) -> bool
    requires { length clps.now < 2 ^ 32 }
    ensures { result ≡ is_endless (parents clps.now) clp }
{
    let mut at = Some(clp);
    for _ in 0..clps.len() + 2 {
        match at {
            Some(c) => at = parent_of(clps, c),
            None => return false,
        }
    }
    true
}

/// Whether the parent is none of that many processes.
fn is_lost(clps: usize, parent: Option<u32>) -> bool
    ensures { result ≡ is_lost clps parent }
{
    match parent {
        Some(clp) => clp as usize >= clps,
        None => false,
    }
}

/// Whether that process is off the tree.
fn is_off_tree(clps: &[ClpRow], clp: u32, root_before: bool) -> bool
    requires few { length clps.now < 2 ^ 32 }
    requires before { root_before ≡ list_any is_none (take clp (parents clps.now)) }
    ensures { result ≡ is_off_tree (parents clps.now) clp }
{
    let parent = parent_of(clps, clp);
    is_lost(clps.len(), parent) || (parent.is_none() && root_before) || is_endless(clps, clp)
}

/// The least process that is off the tree.
#[tactic(auto, unfolding(crate::specs::Plans::first_off_tree))]
pub fn first_off_tree(clps: &[ClpRow]) -> Option<u32>
    requires { length clps.now < 2 ^ 32 }
    ensures { result ≡ first_off_tree (parents clps.now) }
{
    let mut root_before = false;
    for (i, row) in clps.iter().enumerate() {
        if is_off_tree(clps, i as u32, root_before) {
            return Some(i as u32);
        }
        root_before = root_before || row.parent.is_none();
    }
    None
}
