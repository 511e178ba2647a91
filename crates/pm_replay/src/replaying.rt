ghost use Rattle.std.specs.Prelude.{◌≡◌, ◌≢◌, ◌≤◌, IfErr, IfOk, List as Seq, Ok, Err, length, ℕ};
ghost use Rattle.pm_base.specs.declared.run.Event.{Event as TheEvent};
ghost use Rattle.pm_plan.specs.Plans.{IsValid};
ghost use Rattle.pm_replay.specs.Replays.{IsFirstIllegal, IsLegalText, is_end, replayed};
ghost use Rattle.pm_replay.specs.declared.fault.ReplayFault.TheVariants as fault;

use crate::fault::ReplayFault;
use crate::reading::read_lines;
use crate::replayed::Replayed;
use pm_base::Line;
use pm_core::World;
use pm_plan::Plan;
use std::alloc::Global;

fn is_end(line: Line) -> bool
    ensures { result ≡ is_end line }
{
    match line {
        Line::At(_) => false,
        Line::End => true,
    }
}

/// Does the events of a journal's text on the plan's first world, where each line is a journal line whose event is legal
/// behind those before it. The text has at most 67,108,864 bytes.
pub fn replay(alloc: Global, plan: &Plan, text: &[u8]) -> Result<Replayed, ReplayFault>
    requires valid { IsValid plan.now }
    requires short { length text.now ≤ 67108864 }
    ensures text { IfOk result (λ r. IsLegalText plan.now r.journal text.now) }
    ensures replayed { IfOk result (λ r. r ≡ replayed plan.now r.journal) }
    ensures fault { IfErr result (λ f. (n : ℕ) → f ≡ fault.Line n → IsFirstIllegal plan.now n text.now) }
    ensures accepts { (j : Seq TheEvent) → IsLegalText plan.now j text.now →
        result ≢ Err fault.Memory → result ≡ Ok (replayed plan.now j) }
    ensures refuses { (n : ℕ) → IsFirstIllegal plan.now n text.now →
        result ≢ Err fault.Memory → result ≡ Err (fault.Line n) }
{
    let lines = read_lines(alloc, text)?;
    let mut world = World::first(alloc, plan)?;
    let played = world.play(alloc, lines.journal.as_slice())?;
    if let Some(done) = played.stopped {
        return Err(ReplayFault::Line { number: done + 1 });
    }
    if !lines.whole {
        return Err(ReplayFault::Line {
            number: lines.journal.len() as u64 + 1,
        });
    }
    Ok(Replayed {
        journal: lines.journal,
        entries: played.entries,
        ended: is_end(world.line()),
    })
}
