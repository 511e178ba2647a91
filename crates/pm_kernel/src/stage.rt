// A stage of a run: an epoch, the Commit behind it, and the lines of what this hands out.
ghost use Rattle.std.specs.Prelude.{◌≡◌, ◌≢◌, ◌⊎◌, ◌≤◌, ◌+◌, ◌<◌, ◌↔◌, [], IfSome, List as Seq, ℕ};
ghost use Rattle.std.specs.Io.KnownBytes.{Appends};
ghost use Rattle.pm_base.specs.declared.rows.Entry.{Entry as TheEntry};
ghost use Rattle.pm_io.specs.Causes.{AppendsPart, AppendsPrefix, Rose};
ghost use Rattle.pm_kernel.specs.Counts.{counted_on};
ghost use Rattle.pm_kernel.specs.Engines.{HasCommitted, IsMore, StandsAt, world_of};
ghost use Rattle.pm_model.specs.Traces.{trace_text};
ghost use Rattle.pm_plan.specs.Plans.{IsValid};
ghost use Rattle.pm_sim.specs.Journals.{made};
ghost use Rattle.pm_sim.specs.Worlds.{mail};

use crate::engine::Engine;
use crate::window::window_of;
use crate::writing::{Counts, Wrote, write_entries};
use pm_base::{Line, RunSettings};
use pm_io::Sink;
use pm_plan::Plan;
use std::alloc::Global;

/// How a stage ended.
#[derive(Clone, Copy, Debug, PartialEq, Eq)]
pub enum Staged {
    /// So many deliveries were made, and what they committed was written.
    More(u64),
    /// The output failed, or took nothing.
    WriteFault,
    /// Memory ran out.
    Memory,
}

/// How a stage ended whose deliveries were committed.
pub fn stage_of(made: u64, wrote: Wrote) -> Staged
    ensures more { (n : ℕ) → (result ≡ Staged.More n) ↔ ((wrote ≡ Wrote.All) × (n ≡ made)) }
    ensures fault { (result ≡ Staged.WriteFault) ↔ (wrote ≡ Wrote.WriteFault) }
{
    match wrote {
        Wrote::All => Staged::More(made),
        Wrote::WriteFault => Staged::WriteFault,
        Wrote::Memory => Staged::Memory,
    }
}

/// An epoch, a Commit at the least line, and the lines of what this hands out. `left` is how many deliveries may still be
/// made, `bound` the kernel's own bound on how far agents run ahead.
pub fn stage<E: Engine, K: Sink>(
    alloc: Global,
    plan: &Plan,
    settings: &RunSettings,
    left: u64,
    bound: Option<Line>,
    engine: &mut E,
    counts: &mut Counts,
    out: &mut K,
) -> Staged
    requires valid { IsValid plan.now }
    requires stands { StandsAt plan.now settings.now (E.view engine.old) }
    requires begun { IfSome settings.now.window (λ _. (E.view engine.old).journal ≢ []) }
    requires left { left + made (E.view engine.old).journal ≡ settings.now.budget }
    requires some { 0 < left }
    requires mail { mail (world_of (E.view engine.old)).links ≢ [] }
    requires budget { settings.now.budget ≤ 20000000 }
    requires epoch { 1 ≤ settings.now.epoch }
    requires window { IfSome settings.now.window (λ width. 1 ≤ width) }
    ensures more { (n : ℕ) → result ≡ Staged.More n → IsMore plan.now settings.now n (E.view engine.old) (E.view engine.new) }
    ensures most { (n : ℕ) → result ≡ Staged.More n → (0 < n) × (n ≤ left) }
    ensures text { (es : Seq TheEntry) × HasCommitted plan.now settings.now (E.view engine.old) (E.view engine.new) es
        × AppendsPrefix (K.holds out.old) (K.holds out.new) (trace_text plan.now es)
        × (result ≡ Staged.WriteFault → AppendsPart (K.holds out.old) (K.holds out.new) (trace_text plan.now es))
        × ((n : ℕ) → result ≡ Staged.More n → (counts.new ≡ counted_on counts.old es)
        × Appends (K.holds out.old) (K.holds out.new) (trace_text plan.now es)) }
    ensures cause { result ≡ Staged.WriteFault → Rose (K.faults out.old) (K.faults out.new)
        ⊎ Rose (K.stalls out.old) (K.stalls out.new) }
    ensures faults { K.faults out.old ≤ K.faults out.new }
    ensures stalls { K.stalls out.old ≤ K.stalls out.new }
{
    let window = window_of(engine.least(), settings.window, bound);
    match engine.stage(alloc, Some(window), left.min(settings.epoch)) {
        Ok(done) => {
            let wrote = write_entries(alloc, plan, done.entries.as_slice(), counts, out);
            stage_of(done.made, wrote)
        }
        Err(_) => Staged::Memory,
    }
}
