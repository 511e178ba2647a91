// A stage of a run on threads: an epoch, the Commit behind it, and the lines of what this hands out.
ghost use Rattle.std.specs.Prelude.{◌≡◌, ◌≢◌, ◌⊎◌, ◌≤◌, ◌+◌, ◌<◌, ◌↔◌, [], IfSome, List as Seq, ℕ};
ghost use Rattle.std.specs.Io.KnownBytes.{Appends};
ghost use Rattle.pm_base.specs.declared.rows.Entry.{Entry as TheEntry};
ghost use Rattle.pm_io.specs.Causes.{AppendsPart, AppendsPrefix, Rose};
ghost use Rattle.pm_kernel.specs.Counts.{counted_on};
ghost use Rattle.pm_kernel.specs.Engines.{HasCommitted, IsMore, StandsAt, world_of};
ghost use Rattle.pm_model.specs.Traces.{trace_text};
ghost use Rattle.pm_plan.specs.Plans.{IsValid};
ghost use Rattle.pm_sim.specs.Journals.{made};
ghost use Rattle.pm_sim.specs.Worlds.{mail};

use crate::crew::Crew;
use pm_base::{Line, RunSettings};
use pm_io::{Gate, Sink};
use pm_kernel::{Counts, Staged, stage_of, window_of, write_entries};
use pm_plan::Plan;
use std::alloc::Global;
use std::thread::Threads;

/// An epoch, a Commit at the least line, and the lines of what this hands out. `left` is how many deliveries may still be
/// made, `bound` the kernel's own bound on how far agents run ahead.
pub fn stage<R: Threads + Sync + Copy, G: Gate + Sync, K: Sink>(
    alloc: Global,
    plan: &Plan,
    settings: &RunSettings,
    left: u64,
    bound: Option<Line>,
    crew: &mut Crew<'_, R, G>,
    counts: &mut Counts,
    out: &mut K,
) -> Staged
    requires valid { IsValid plan.now }
    requires stands { StandsAt plan.now settings.now crew.old }
    requires begun { IfSome settings.now.window (λ _. crew.old.journal ≢ []) }
    requires left { left + made crew.old.journal ≡ settings.now.budget }
    requires some { 0 < left }
    requires mail { mail (world_of crew.old).links ≢ [] }
    requires budget { settings.now.budget ≤ 20000000 }
    requires epoch { 1 ≤ settings.now.epoch }
    requires window { IfSome settings.now.window (λ width. 1 ≤ width) }
    ensures more { (n : ℕ) → result ≡ Staged.More n → IsMore plan.now settings.now n crew.old crew.new }
    ensures most { (n : ℕ) → result ≡ Staged.More n → (0 < n) × (n ≤ left) }
    ensures text { (es : Seq TheEntry) × HasCommitted plan.now settings.now crew.old crew.new es
        × AppendsPrefix (K.holds out.old) (K.holds out.new) (trace_text plan.now es)
        × (result ≡ Staged.WriteFault → AppendsPart (K.holds out.old) (K.holds out.new) (trace_text plan.now es))
        × ((n : ℕ) → result ≡ Staged.More n → (counts.new ≡ counted_on counts.old es)
        × Appends (K.holds out.old) (K.holds out.new) (trace_text plan.now es)) }
    ensures cause { result ≡ Staged.WriteFault → Rose (K.faults out.old) (K.faults out.new)
        ⊎ Rose (K.stalls out.old) (K.stalls out.new) }
    ensures faults { K.faults out.old ≤ K.faults out.new }
    ensures stalls { K.stalls out.old ≤ K.stalls out.new }
{
    let window = window_of(crew.least(), settings.window, bound);
    match crew.stage(alloc, Some(window), left.min(settings.epoch)) {
        Ok(done) => {
            let wrote = write_entries(alloc, plan, done.entries.as_slice(), counts, out);
            stage_of(done.made, wrote)
        }
        Err(_) => Staged::Memory,
    }
}
