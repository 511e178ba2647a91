//! Ordered links between two threads: what one end sends comes out of the other end in order. A ring of fixed room is
//! between them, and a backlog at the end that sends takes what the ring has no room for.
#![tactic(auto)]

ghost use Rattle.std.specs.Prelude.{◌≡◌, ◌≤◌, [], ◌++◌, IfOk, OnOk};
ghost use Rattle.pm_links.specs.Links.{sent, received, waiting, IsLink, SentSame, Grew};

mod in_end;
mod out_end;
#[cfg(test)]
mod tests;

pub use in_end::InEnd;
pub use out_end::OutEnd;
use pm_base::Memory;
use rtrb::RingBuffer;
use std::alloc::Global;

/// The two ends of a new link, whose ring has room for so many items.
pub fn pair<T: Drop>(alloc: Global, room: u32) -> Result<(OutEnd<T>, InEnd<T>), Memory>
    requires { 1 ≤ room }
    ensures link { IfOk result (λ r. IsLink r.0 r.1) }
    ensures sent { IfOk result (λ r. sent r.0 ≡ []) }
    ensures received { IfOk result (λ r. (received r.1 ≡ []) × (waiting r.1 ≡ [])) }
{
    let (producer, consumer) = RingBuffer::new(alloc, room as usize)?;
    let out = OutEnd::new(alloc, producer);
    let inn = InEnd::new(alloc, consumer)?;
    Ok((out, inn))
}

/// Brings all that was sent to the end that receives, where it waits: `next` and `first` then answer none exactly where
/// nothing is left. After `Memory` nothing is lost, and both ends can be drawn again.
pub fn draw<T: Drop>(out: &mut OutEnd<T>, inn: &mut InEnd<T>) -> Result<(), Memory>
    requires { IsLink out.old inn.old }
    ensures out { SentSame out.old out.new }
    ensures inn { Grew inn.old inn.new }
    ensures all { OnOk result (received inn.new ++ waiting inn.new ≡ sent out.new) }
{
    inn.take_all(out)?;
    while out.has_backlog() {
        out.refill(inn);
        inn.take_all(out)?;
    }
    Ok(())
}
