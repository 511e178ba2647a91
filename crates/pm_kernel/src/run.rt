// A run on one thread.
ghost use Rattle.std.specs.Prelude.{◌≡◌, ◌≢◌, ◌⊎◌, ◌≤◌, [], IfSome, List as Seq};
ghost use Rattle.std.specs.Io.KnownBytes.{Appends};
ghost use Rattle.pm_base.specs.declared.stamp.Line.TheVariants.{End};
ghost use Rattle.pm_io.specs.Causes.{AppendsPart, AppendsPrefix, Rose};
ghost use Rattle.pm_kernel.specs.Counts.{counted_on, no_counts};
ghost use Rattle.pm_base.specs.declared.rows.Entry.{Entry as TheEntry};
ghost use Rattle.pm_kernel.specs.Engines.{HasCommitted, HasStarted, StandsAt, first_run, world_of};
ghost use Rattle.pm_model.specs.Traces.{trace_text};
ghost use Rattle.pm_kernel.specs.Runs.{HasRun, IsDone, IsJournal, IsSpent, text_of};
ghost use Rattle.pm_plan.specs.Plans.{IsValid};
ghost use Rattle.pm_sim.specs.Journals.{made};
ghost use Rattle.pm_sim.specs.Worlds.{committed, least_line};

use crate::ahead::Ahead;
use crate::alone::Alone;
use crate::engine::{Engine, is_over};
use crate::ran::{Outcome, Ran};
use crate::stage::{Staged, stage};
use crate::writing::{Counts, Wrote, write_entries};
use pm_base::{Line, RunSettings};
use pm_io::Sink;
use pm_plan::Plan;
use std::alloc::Global;

// The bound of the next epoch: just above the moment of the last agent that it lets through, or of the last that is to
// act where there are fewer. An agent that acts alone needs none, and want of memory leaves the epoch without one.
fn bound_of<E: Engine>(alloc: Global, ahead: &Ahead, engine: &E) -> Option<Line> {
    if let Some(line) = ahead.unfinished() {
        return Some(line);
    }
    let agents = ahead.agents();
    for fewer in 0..agents.saturating_sub(1) {
        if let Some(line) = engine.ahead(alloc, agents.saturating_sub(fewer)).ok()? {
            return Some(line);
        }
    }
    None
}

// Stages, until nothing is left to be delivered or the budget is spent.
fn stages<E: Engine, K: Sink>(
    alloc: Global,
    plan: &Plan,
    settings: &RunSettings,
    engine: &mut E,
    counts: &mut Counts,
    out: &mut K,
) -> Outcome
    requires valid { IsValid plan.now }
    requires budget { settings.now.budget ≤ 20000000 }
    requires epoch { 1 ≤ settings.now.epoch }
    requires window { IfSome settings.now.window (λ width. 1 ≤ width) }
    requires stands { StandsAt plan.now settings.now (E.view engine.old) }
    requires none { made (E.view engine.old).journal ≡ 0 }
    requires begun { IfSome settings.now.window (λ _. (E.view engine.old).journal ≢ []) }
    requires over { least_line (world_of (E.view engine.old)) ≡ End → (E.view engine.old).journal ≢ [] }
    requires counts { counts.old ≡ counted_on no_counts (committed plan.now (E.view engine.old).journal) }
    ensures journal { IsJournal plan.now settings.now (E.view engine.new).journal }
    ensures text { HasRun plan.now (K.holds out.old) (K.holds out.new) (E.view engine.old).journal
        (E.view engine.new).journal result }
    ensures done { result ≡ Outcome.Done → IsDone plan.now (E.view engine.new).journal }
    ensures spent { result ≡ Outcome.BudgetSpent → IsSpent plan.now settings.now (E.view engine.new).journal }
    ensures counts { result ≡ Outcome.Done →
        counts.new ≡ counted_on no_counts (committed plan.now (E.view engine.new).journal) }
    ensures cause { result ≡ Outcome.WriteFault → Rose (K.faults out.old) (K.faults out.new)
        ⊎ Rose (K.stalls out.old) (K.stalls out.new) }
    ensures faults { K.faults out.old ≤ K.faults out.new }
    ensures stalls { K.stalls out.old ≤ K.stalls out.new }
{
    let mut left = settings.budget;
    let mut ahead = Ahead::new();
    while left > 0 && !is_over(engine) {
        let bound = bound_of(alloc, &ahead, engine);
        match stage(alloc, plan, settings, left, bound, engine, counts, out) {
            Staged::More(made) => {
                left -= made;
                ahead.went(bound, made, settings.epoch);
            }
            Staged::WriteFault => return Outcome::WriteFault,
            Staged::Memory => return Outcome::Memory,
        }
    }
    if is_over(engine) {
        Outcome::Done
    } else {
        Outcome::BudgetSpent
    }
}

// The first Commit, which a run begins with where a window is given, or where nothing is to be delivered.
fn start<E: Engine, K: Sink>(
    alloc: Global,
    plan: &Plan,
    settings: &RunSettings,
    engine: &mut E,
    counts: &mut Counts,
    out: &mut K,
) -> Wrote
    requires valid { IsValid plan.now }
    requires first { E.view engine.old ≡ first_run plan.now }
    requires counts { counts.old ≡ no_counts }
    ensures all { result ≡ Wrote.All → HasStarted plan.now settings.now (E.view engine.new)
        × (counts.new ≡ counted_on no_counts (committed plan.now (E.view engine.new).journal)) }
    ensures text { (es : Seq TheEntry) × HasCommitted plan.now settings.now (E.view engine.old) (E.view engine.new) es
        × AppendsPrefix (K.holds out.old) (K.holds out.new) (trace_text plan.now es)
        × (result ≡ Wrote.WriteFault → AppendsPart (K.holds out.old) (K.holds out.new) (trace_text plan.now es))
        × (result ≡ Wrote.All → Appends (K.holds out.old) (K.holds out.new) (trace_text plan.now es)) }
    ensures cause { result ≡ Wrote.WriteFault → Rose (K.faults out.old) (K.faults out.new)
        ⊎ Rose (K.stalls out.old) (K.stalls out.new) }
    ensures faults { K.faults out.old ≤ K.faults out.new }
    ensures stalls { K.stalls out.old ≤ K.stalls out.new }
{
    if settings.window.is_none() && !is_over(engine) {
        return Wrote::All;
    }
    match engine.stage(alloc, None, 0) {
        Ok(done) => write_entries(alloc, plan, done.entries.as_slice(), counts, out),
        Err(_) => Wrote::Memory,
    }
}

// The first Commit, where there is one, and the stages.
fn go<E: Engine, K: Sink>(
    alloc: Global,
    plan: &Plan,
    settings: &RunSettings,
    engine: &mut E,
    counts: &mut Counts,
    out: &mut K,
) -> Outcome
    requires valid { IsValid plan.now }
    requires budget { settings.now.budget ≤ 20000000 }
    requires epoch { 1 ≤ settings.now.epoch }
    requires window { IfSome settings.now.window (λ width. 1 ≤ width) }
    requires first { E.view engine.old ≡ first_run plan.now }
    requires counts { counts.old ≡ no_counts }
    ensures journal { IsJournal plan.now settings.now (E.view engine.new).journal }
    ensures text { HasRun plan.now (K.holds out.old) (K.holds out.new) [] (E.view engine.new).journal result }
    ensures done { result ≡ Outcome.Done → IsDone plan.now (E.view engine.new).journal }
    ensures spent { result ≡ Outcome.BudgetSpent → IsSpent plan.now settings.now (E.view engine.new).journal }
    ensures counts { result ≡ Outcome.Done →
        counts.new ≡ counted_on no_counts (committed plan.now (E.view engine.new).journal) }
    ensures cause { result ≡ Outcome.WriteFault → Rose (K.faults out.old) (K.faults out.new)
        ⊎ Rose (K.stalls out.old) (K.stalls out.new) }
    ensures faults { K.faults out.old ≤ K.faults out.new }
    ensures stalls { K.stalls out.old ≤ K.stalls out.new }
{
    match start(alloc, plan, settings, engine, counts, out) {
        Wrote::All => stages(alloc, plan, settings, engine, counts, out),
        Wrote::WriteFault => Outcome::WriteFault,
        Wrote::Memory => Outcome::Memory,
    }
}

/// Runs a plan by an engine that stands before its first event: epochs of at most so many deliveries, a Commit at the
/// least line behind each, and the lines of what is committed written as it is, each by itself. Of the settings it takes
/// the budget of deliveries, the epoch and the window. It always returns where the engine does. After a failed write
/// nothing more is offered; after want of memory nothing more is delivered, and the deliveries since the last Commit are
/// in no journal.
pub fn run_over<E: Engine, K: Sink>(
    alloc: Global,
    plan: &Plan,
    settings: &RunSettings,
    engine: E,
    out: &mut K,
) -> Ran
    requires first { E.view engine ≡ first_run plan.now }
    requires valid { IsValid plan.now }
    requires budget { settings.now.budget ≤ 20000000 }
    requires epoch { 1 ≤ settings.now.epoch }
    requires window { IfSome settings.now.window (λ width. 1 ≤ width) }
    ensures journal { IsJournal plan.now settings.now result.journal }
    ensures whole { (result.outcome ≡ Outcome.Done) ⊎ (result.outcome ≡ Outcome.BudgetSpent) →
        Appends (K.holds out.old) (K.holds out.new) (text_of plan.now result.journal) }
    ensures part { AppendsPrefix (K.holds out.old) (K.holds out.new) (text_of plan.now result.journal) }
    ensures lacks { result.outcome ≡ Outcome.WriteFault →
        AppendsPart (K.holds out.old) (K.holds out.new) (text_of plan.now result.journal) }
    ensures done { result.outcome ≡ Outcome.Done → IsDone plan.now result.journal }
    ensures spent { result.outcome ≡ Outcome.BudgetSpent → IsSpent plan.now settings.now result.journal }
    ensures counts { result.outcome ≡ Outcome.Done →
        result.counts ≡ counted_on no_counts (committed plan.now result.journal) }
    ensures cause { result.outcome ≡ Outcome.WriteFault → Rose (K.faults out.old) (K.faults out.new)
        ⊎ Rose (K.stalls out.old) (K.stalls out.new) }
    ensures faults { K.faults out.old ≤ K.faults out.new }
    ensures stalls { K.stalls out.old ≤ K.stalls out.new }
{
    let mut engine = engine;
    let mut counts = Counts::none();
    let outcome = go(alloc, plan, settings, &mut engine, &mut counts, out);
    Ran {
        outcome,
        journal: engine.into_journal(),
        counts,
    }
}

/// Runs a plan on this thread. Of the settings it takes the budget of deliveries, the epoch and the window; `workers` and
/// `turns` are for a run on threads. It always returns. After a failed write nothing more is offered; after want of memory
/// nothing more is delivered, and the deliveries since the last Commit are in no journal.
pub fn run_plain<K: Sink>(alloc: Global, plan: &Plan, settings: &RunSettings, out: &mut K) -> Ran
    requires valid { IsValid plan.now }
    requires budget { settings.now.budget ≤ 20000000 }
    requires epoch { 1 ≤ settings.now.epoch }
    requires window { IfSome settings.now.window (λ width. 1 ≤ width) }
    ensures journal { IsJournal plan.now settings.now result.journal }
    ensures whole { (result.outcome ≡ Outcome.Done) ⊎ (result.outcome ≡ Outcome.BudgetSpent) →
        Appends (K.holds out.old) (K.holds out.new) (text_of plan.now result.journal) }
    ensures part { AppendsPrefix (K.holds out.old) (K.holds out.new) (text_of plan.now result.journal) }
    ensures lacks { result.outcome ≡ Outcome.WriteFault →
        AppendsPart (K.holds out.old) (K.holds out.new) (text_of plan.now result.journal) }
    ensures done { result.outcome ≡ Outcome.Done → IsDone plan.now result.journal }
    ensures spent { result.outcome ≡ Outcome.BudgetSpent → IsSpent plan.now settings.now result.journal }
    ensures counts { result.outcome ≡ Outcome.Done →
        result.counts ≡ counted_on no_counts (committed plan.now result.journal) }
    ensures cause { result.outcome ≡ Outcome.WriteFault → Rose (K.faults out.old) (K.faults out.new)
        ⊎ Rose (K.stalls out.old) (K.stalls out.new) }
    ensures faults { K.faults out.old ≤ K.faults out.new }
    ensures stalls { K.stalls out.old ≤ K.stalls out.new }
{
    match Alone::begin(alloc, plan) {
        Ok(alone) => run_over(alloc, plan, settings, alone, out),
        Err(_) => Ran::starved(alloc),
    }
}
