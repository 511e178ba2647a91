//! Bringing what was sent to where it is received.
ghost use Rattle.std.specs.Prelude.{◌≡◌, ◌≢◌, ◌++◌, OnOk, Some, ℕ};
ghost use Rattle.pm_ends.specs.Ends.{AllGrew};
ghost use Rattle.pm_ends.specs.Numbers.{nth};
ghost use Rattle.pm_ends.specs.Wires.{IsDrawn, IsWiredAt};

use crate::in_ends::InEnds;
use crate::out_ends::OutEnds;
use crate::tree::mend;
use pm_base::Memory;

/// Brings all that was sent over the link of the in-end at that place to that end, where it waits; the out-end is at
/// the place that the in-end names. After `Memory` nothing is lost, and the link can be drawn again.
pub fn draw(outs: &mut OutEnds, inns: &mut InEnds, at: usize) -> Result<(), Memory>
    requires { IsWiredAt outs.old inns.old at }
    ensures outs { outs.new ≡ outs.old }
    ensures inns { AllGrew inns.old inns.new }
    ensures others { (j : ℕ) → j ≢ at → nth inns.new j ≡ nth inns.old j }
    ensures drawn { OnOk result (IsDrawn outs.new inns.new at) }
{
    let inn = &mut inns.ends[at];
    let out = &mut outs.ends[inn.slot as usize];
    let drawn = pm_links::draw(&mut out.end, &mut inn.end);
    mend(inns.ends.as_slice(), &mut inns.best, at);
    drawn
}
