//! The ends of the links between several processes.
ghost use Rattle.std.specs.Prelude.{◌≡◌, ◌<◌, [], IfOk, OnOk, length, get_or, replicate};
ghost use Rattle.std.specs.List.{AllByRecursion};
ghost use Rattle.pm_ends.specs.Ends.{froms, tos};
ghost use Rattle.pm_ends.specs.Numbers.{LinksBelow, LinksRise};
ghost use Rattle.pm_ends.specs.Wires.{AreWires, IsConnected};

use crate::in_ends::InEnds;
use crate::out_ends::{OutEnds, receivers_rise};
use pm_base::Memory;
use pm_links::pair;
use std::alloc::Global;

// For how many items each link's ring has room; what doesn't fit waits behind it at the end that sends.
const ROOM: u32 = 16;

/// The ends of these links, each link given by receiver and sender, between so many processes: by process, the ends
/// that it receives from and those that it sends over. Nothing went over them.
pub fn wires(
    alloc: Global,
    links: &[(u32, u32)],
    count: usize,
) -> Result<(Vec<InEnds>, Vec<OutEnds>), Memory>
    requires rises { LinksRise links.now }
    requires below { LinksBelow count links.now }
    ensures { IfOk result (λ r. AreWires links.now count r.0.items r.1.items) }
{
    let (mut inns, mut outs) = no_ends(alloc, count)?;
    for link in links {
        let (to, from) = *link;
        connect(alloc, &mut inns, &mut outs, to, from)?;
    }
    Ok((inns, outs))
}

// No end at so many processes.
fn no_ends(alloc: Global, count: usize) -> Result<(Vec<InEnds>, Vec<OutEnds>), Memory>
    ensures { IfOk result (λ r. (r.0.items ≡ replicate count []) × (r.1.items ≡ replicate count [])) }
{
    let mut inns = Vec::with_capacity(alloc, count)?;
    let mut outs = Vec::with_capacity(alloc, count)?;
    for _ in 0..count {
        inns.push(InEnds::new(alloc))?;
        outs.push(OutEnds::new(alloc))?;
    }
    Ok((inns, outs))
}

// One more link: each of its ends stands last at its process.
fn connect(
    alloc: Global,
    inns: &mut Vec<InEnds>,
    outs: &mut Vec<OutEnds>,
    to: u32,
    from: u32,
) -> Result<(), Memory>
    requires below { (to < length inns.old.items) × (from < length outs.old.items) }
    requires senders { AllByRecursion (λ k. k < from) (froms (get_or inns.old.items to [])) }
    requires receivers { AllByRecursion (λ k. k < to) (tos (get_or outs.old.items from [])) }
    ensures { OnOk result (IsConnected to from inns.old.items outs.old.items inns.new.items outs.new.items) }
{
    let (out, inn) = pair(alloc, ROOM)?;
    receivers_rise(&outs[from as usize]);
    let slot = outs[from as usize].len() as u32;
    outs[from as usize].add(to, out)?;
    inns[to as usize].add(from, slot, inn)
}
