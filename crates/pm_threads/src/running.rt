// A run on threads.
ghost use Rattle.std.specs.Prelude.{◌≡◌, ◌≢◌, ◌⊎◌, ◌≤◌, [], false, IfSome, List as Seq};
ghost use Rattle.std.specs.Io.KnownBytes.{Appends};
ghost use Rattle.pm_base.specs.declared.stamp.Line.TheVariants.{End};
ghost use Rattle.pm_io.specs.Causes.{AppendsPart, AppendsPrefix, Rose};
ghost use Rattle.pm_kernel.specs.Counts.{counted_on, no_counts};
ghost use Rattle.pm_base.specs.declared.rows.Entry.{Entry as TheEntry};
ghost use Rattle.pm_kernel.specs.Engines.{HasCommitted, HasStarted, StandsAt, first_run, world_of};
ghost use Rattle.pm_model.specs.Traces.{trace_text};
ghost use Rattle.pm_kernel.specs.Runs.{HasRun, IsDone, IsJournal, IsSpent, text_of};
ghost use Rattle.pm_plan.specs.Plans.{IsValid};
ghost use Rattle.pm_sim.specs.Journals.{made};
ghost use Rattle.pm_sim.specs.Worlds.{committed, least_line};

use crate::crew::Crew;
use crate::stage::stage;
use pm_base::{Line, RunSettings};
use pm_io::{Gate, Sink};
use pm_kernel::{Ahead, Counts, Outcome, Ran, Staged, Wrote, run_plain, write_entries};
use pm_plan::Plan;
use std::alloc::Global;
use std::thread::Threads;

// Whether a line is below another.
fn is_below(line: Line, other: Line) -> bool {
    match line {
        Line::At(stamp) => other.is_past(stamp),
        Line::End => false,
    }
}

// The bound of the next epoch: the last one again while something below it is left, since the steps that it let through
// come to their end before others begin (an epoch ends where the share of one cell is used up, too). Want of memory leaves
// it without one.
fn bound_of<R: Threads + Sync + Copy, G: Gate + Sync>(
    alloc: Global,
    ahead: &Ahead,
    last: Option<Line>,
    crew: &Crew<'_, R, G>,
) -> Option<Line>
    requires { crew.now.spoilt ≡ false }
{
    match last {
        Some(line) if is_below(crew.least(), line) => Some(line),
        _ => crew.ahead(alloc, ahead.agents()).unwrap_or(None),
    }
}

// Stages, until nothing is left to be delivered or the budget is spent.
fn stages<R: Threads + Sync + Copy, G: Gate + Sync, K: Sink>(
    alloc: Global,
    plan: &Plan,
    settings: &RunSettings,
    crew: &mut Crew<'_, R, G>,
    counts: &mut Counts,
    out: &mut K,
) -> Outcome
    requires valid { IsValid plan.now }
    requires budget { settings.now.budget ≤ 20000000 }
    requires epoch { 1 ≤ settings.now.epoch }
    requires window { IfSome settings.now.window (λ width. 1 ≤ width) }
    requires stands { StandsAt plan.now settings.now crew.old }
    requires none { made crew.old.journal ≡ 0 }
    requires begun { IfSome settings.now.window (λ _. crew.old.journal ≢ []) }
    requires over { least_line (world_of crew.old) ≡ End → crew.old.journal ≢ [] }
    requires counts { counts.old ≡ counted_on no_counts (committed plan.now crew.old.journal) }
    ensures journal { IsJournal plan.now settings.now crew.new.journal }
    ensures text { HasRun plan.now (K.holds out.old) (K.holds out.new) crew.old.journal
        crew.new.journal result }
    ensures done { result ≡ Outcome.Done → IsDone plan.now crew.new.journal }
    ensures spent { result ≡ Outcome.BudgetSpent → IsSpent plan.now settings.now crew.new.journal }
    ensures counts { result ≡ Outcome.Done →
        counts.new ≡ counted_on no_counts (committed plan.now crew.new.journal) }
    ensures cause { result ≡ Outcome.WriteFault → Rose (K.faults out.old) (K.faults out.new)
        ⊎ Rose (K.stalls out.old) (K.stalls out.new) }
    ensures faults { K.faults out.old ≤ K.faults out.new }
    ensures stalls { K.stalls out.old ≤ K.stalls out.new }
{
    let mut left = settings.budget;
    let mut ahead = Ahead::new();
    let mut last = None;
    while left > 0 && !crew.is_over() {
        let bound = bound_of(alloc, &ahead, last, crew);
        let steps = counts.steps;
        match stage(alloc, plan, settings, left, bound, crew, counts, out) {
            Staged::More(made) => {
                left -= made;
                last = bound;
                ahead.learn(made, counts.steps.saturating_sub(steps));
            }
            Staged::WriteFault => return Outcome::WriteFault,
            Staged::Memory => return Outcome::Memory,
        }
    }
    if crew.is_over() {
        Outcome::Done
    } else {
        Outcome::BudgetSpent
    }
}

// The first Commit, which a run begins with where a window is given, or where nothing is to be delivered.
fn start<R: Threads + Sync + Copy, G: Gate + Sync, K: Sink>(
    alloc: Global,
    plan: &Plan,
    settings: &RunSettings,
    crew: &mut Crew<'_, R, G>,
    counts: &mut Counts,
    out: &mut K,
) -> Wrote
    requires valid { IsValid plan.now }
    requires first { crew.old ≡ first_run plan.now }
    requires counts { counts.old ≡ no_counts }
    ensures all { result ≡ Wrote.All → HasStarted plan.now settings.now crew.new
        × (counts.new ≡ counted_on no_counts (committed plan.now crew.new.journal)) }
    ensures text { (es : Seq TheEntry) × HasCommitted plan.now settings.now crew.old crew.new es
        × AppendsPrefix (K.holds out.old) (K.holds out.new) (trace_text plan.now es)
        × (result ≡ Wrote.WriteFault → AppendsPart (K.holds out.old) (K.holds out.new) (trace_text plan.now es))
        × (result ≡ Wrote.All → Appends (K.holds out.old) (K.holds out.new) (trace_text plan.now es)) }
    ensures cause { result ≡ Wrote.WriteFault → Rose (K.faults out.old) (K.faults out.new)
        ⊎ Rose (K.stalls out.old) (K.stalls out.new) }
    ensures faults { K.faults out.old ≤ K.faults out.new }
    ensures stalls { K.stalls out.old ≤ K.stalls out.new }
{
    if settings.window.is_none() && !crew.is_over() {
        return Wrote::All;
    }
    match crew.stage(alloc, None, 0) {
        Ok(done) => write_entries(alloc, plan, done.entries.as_slice(), counts, out),
        Err(_) => Wrote::Memory,
    }
}

// The first Commit, where there is one, and the stages.
fn go<R: Threads + Sync + Copy, G: Gate + Sync, K: Sink>(
    alloc: Global,
    plan: &Plan,
    settings: &RunSettings,
    crew: &mut Crew<'_, R, G>,
    counts: &mut Counts,
    out: &mut K,
) -> Outcome
    requires valid { IsValid plan.now }
    requires budget { settings.now.budget ≤ 20000000 }
    requires epoch { 1 ≤ settings.now.epoch }
    requires window { IfSome settings.now.window (λ width. 1 ≤ width) }
    requires first { crew.old ≡ first_run plan.now }
    requires counts { counts.old ≡ no_counts }
    ensures journal { IsJournal plan.now settings.now crew.new.journal }
    ensures text { HasRun plan.now (K.holds out.old) (K.holds out.new) [] crew.new.journal result }
    ensures done { result ≡ Outcome.Done → IsDone plan.now crew.new.journal }
    ensures spent { result ≡ Outcome.BudgetSpent → IsSpent plan.now settings.now crew.new.journal }
    ensures counts { result ≡ Outcome.Done →
        counts.new ≡ counted_on no_counts (committed plan.now crew.new.journal) }
    ensures cause { result ≡ Outcome.WriteFault → Rose (K.faults out.old) (K.faults out.new)
        ⊎ Rose (K.stalls out.old) (K.stalls out.new) }
    ensures faults { K.faults out.old ≤ K.faults out.new }
    ensures stalls { K.stalls out.old ≤ K.stalls out.new }
{
    match start(alloc, plan, settings, crew, counts, out) {
        Wrote::All => stages(alloc, plan, settings, crew, counts, out),
        Wrote::WriteFault => Outcome::WriteFault,
        Wrote::Memory => Outcome::Memory,
    }
}

/// What starts threads, by value, and the gate that is asked before each turn of a worker.
#[derive(Clone, Copy)]
pub struct Hands<'a, R, G> {
    pub rt: R,
    pub gate: &'a G,
}

// A run by as many workers as the settings say, at least one.
fn run_crew<R: Threads + Sync + Copy, G: Gate + Sync, K: Sink>(
    hands: Hands<'_, R, G>,
    alloc: Global,
    plan: &Plan,
    settings: &RunSettings,
    out: &mut K,
) -> Ran
    requires some { 1 ≤ settings.now.workers }
    requires valid { IsValid plan.now }
    requires budget { settings.now.budget ≤ 20000000 }
    requires epoch { 1 ≤ settings.now.epoch }
    requires window { IfSome settings.now.window (λ width. 1 ≤ width) }
    ensures journal { IsJournal plan.now settings.now result.journal }
    ensures whole { (result.outcome ≡ Outcome.Done) ⊎ (result.outcome ≡ Outcome.BudgetSpent) →
        Appends (K.holds out.old) (K.holds out.new) (text_of plan.now result.journal) }
    ensures part { AppendsPrefix (K.holds out.old) (K.holds out.new) (text_of plan.now result.journal) }
    ensures lacks { result.outcome ≡ Outcome.WriteFault →
        AppendsPart (K.holds out.old) (K.holds out.new) (text_of plan.now result.journal) }
    ensures done { result.outcome ≡ Outcome.Done → IsDone plan.now result.journal }
    ensures spent { result.outcome ≡ Outcome.BudgetSpent → IsSpent plan.now settings.now result.journal }
    ensures counts { result.outcome ≡ Outcome.Done →
        result.counts ≡ counted_on no_counts (committed plan.now result.journal) }
    ensures cause { result.outcome ≡ Outcome.WriteFault → Rose (K.faults out.old) (K.faults out.new)
        ⊎ Rose (K.stalls out.old) (K.stalls out.new) }
    ensures faults { K.faults out.old ≤ K.faults out.new }
    ensures stalls { K.stalls out.old ≤ K.stalls out.new }
{
    let mut crew = match Crew::begin(alloc, plan, hands.rt, hands.gate, settings.workers) {
        Ok(crew) => crew,
        Err(_) => return Ran::starved(alloc),
    };
    let mut counts = Counts::none();
    let outcome = go(alloc, plan, settings, &mut crew, &mut counts, out);
    Ran {
        outcome,
        journal: crew.into_journal(),
        counts,
    }
}

/// Runs a plan by as many workers as the settings say, each in a thread of its own; where they say none, or there are no
/// hands, on this thread alone. Of the settings it takes the budget of deliveries, the epoch, the window and the workers;
/// `turns` is not asked: workers take turns at all processes. Where it starts threads it waits for them. After a failed
/// write nothing more is offered; after want of memory nothing more is delivered, and the deliveries since the last Commit
/// are in no journal.
pub fn run<R: Threads + Sync + Copy, G: Gate + Sync, K: Sink>(
    hands: Option<Hands<'_, R, G>>,
    alloc: Global,
    plan: &Plan,
    settings: &RunSettings,
    out: &mut K,
) -> Ran
    requires valid { IsValid plan.now }
    requires budget { settings.now.budget ≤ 20000000 }
    requires epoch { 1 ≤ settings.now.epoch }
    requires window { IfSome settings.now.window (λ width. 1 ≤ width) }
    ensures journal { IsJournal plan.now settings.now result.journal }
    ensures whole { (result.outcome ≡ Outcome.Done) ⊎ (result.outcome ≡ Outcome.BudgetSpent) →
        Appends (K.holds out.old) (K.holds out.new) (text_of plan.now result.journal) }
    ensures part { AppendsPrefix (K.holds out.old) (K.holds out.new) (text_of plan.now result.journal) }
    ensures lacks { result.outcome ≡ Outcome.WriteFault →
        AppendsPart (K.holds out.old) (K.holds out.new) (text_of plan.now result.journal) }
    ensures done { result.outcome ≡ Outcome.Done → IsDone plan.now result.journal }
    ensures spent { result.outcome ≡ Outcome.BudgetSpent → IsSpent plan.now settings.now result.journal }
    ensures counts { result.outcome ≡ Outcome.Done →
        result.counts ≡ counted_on no_counts (committed plan.now result.journal) }
    ensures cause { result.outcome ≡ Outcome.WriteFault → Rose (K.faults out.old) (K.faults out.new)
        ⊎ Rose (K.stalls out.old) (K.stalls out.new) }
    ensures faults { K.faults out.old ≤ K.faults out.new }
    ensures stalls { K.stalls out.old ≤ K.stalls out.new }
{
    match hands {
        Some(hands) if settings.workers > 0 => run_crew(hands, alloc, plan, settings, out),
        _ => run_plain(alloc, plan, settings, out),
    }
}
