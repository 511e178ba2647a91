ghost use Rattle.std.specs.Prelude.{ℕ, ◌≡◌, ◌≢◌, ◌⊎◌, ◌<◌, ◌≤◌, ◌^◌, [], true, false, Some, None, IfSome, Ok, Err, length, map, string_bytes};
ghost use denote.Param.Send.{IsSync};
ghost use Rattle.std.specs.Io.KnownBytes.{IsAtEnd};
ghost use Rattle.pm_io.specs.Causes.{Rose};
ghost use Rattle.pm_plan.specs.Plans.{IsValid};
ghost use Rattle.pm_plan.specs.declared.plan.Plan.{Plan as ThePlan};
ghost use Rattle.pm_scenario.specs.Scenarios.{plan_of};
ghost use Rattle.pm_scenario.specs.declared.fault.ScenarioFault.{ScenarioFault as TheFault};
ghost use Rattle.pm_top.specs.Endings.{Accepts, ending_of, error_line, status_of};
ghost use Rattle.pm_top.specs.Headline.{EndsRun, HasBudget, HasRun, IsServed, Offers, ReadsAll, WritesNothing, given};
ghost use Rattle.pm_top.specs.Makers.{Makes};
ghost use Rattle.pm_top.specs.Printed.{PrintedIn, PrintedOf, PrintedWhere};
ghost use Rattle.pm_top.specs.Readings.{IsAccepted, IsLongInput, IsLongScenario, IsRefused, IsTakenAtMost, IsUnfit, longest, scenario_in};
ghost use Rattle.pm_top.specs.Serving.{settings_alone, settings_served};
ghost use Rattle.pm_top.specs.Speech.{sight};
ghost use Rattle.pm_words.specs.Ranges.{IsInRange};
ghost use Rattle.pm_words.specs.Words.{reads, settings_of};

use crate::check::write_check;
use crate::demo::write_demo;
use crate::lowest::write_lowest;
use crate::makers::Makers;
use crate::optimistic::write_optimistic;
use crate::outcome::{Ending, offer, status_of};
use crate::reading::{LONGEST_SCENARIO, Unread, longest, read_whole, scenario_in};
use crate::replays::write_replay;
use crate::run::write_run;
use crate::serving::read_served;
use crate::texts::{write_cut, write_place, write_upgrade};
use crate::work::{Worked, still};
use pm_base::{Journal, RunSettings};
use pm_gen::scenario_of;
use pm_io::{Gate, MemSink, Sink, Source};
use pm_kernel::{Outcome, Ran, run_plain};
use pm_plan::Plan;
use pm_plan::laws::limits_are_kept;
use pm_replay::parts;
use pm_scenario::{ScenarioFault, read};
use pm_threads::{Hands, run};
use pm_upgrade::read_plans_can_be_printed;
use pm_words::{Mode, Settings, WordsFault};
use std::alloc::Global;
use std::thread::Threads;

/// How a call ended.
#[derive(Debug, Drop)]
pub struct Report {
    /// The status that the program ends with.
    pub status: u8,
    /// Why it is that status.
    pub ending: Ending,
    /// The events of the run: of the optimistic one up to its last Commit; the modes that make none have an empty one.
    pub journal: Journal,
}

/// How a call ends whose run came to this.
fn ending_of(outcome: Outcome) -> Ending
    ensures { result ≡ ending_of outcome }
{
    match outcome {
        Outcome::Done => Ending::Done,
        Outcome::BudgetSpent => Ending::BudgetSpent,
        Outcome::WriteFault => Ending::WriteFault,
        Outcome::Memory => Ending::Memory,
    }
}

/// Writes what the mode writes of a plan.
fn write_output<
    K: Sink,
    F: FnOnce(&Plan, &RunSettings, &mut K) -> Ran,
    M: FnOnce(&Plan, &RunSettings, &mut MemSink) -> Ran,
>(
    makers: Makers<F, M>,
    alloc: Global,
    mode: Mode,
    settings: &Settings,
    bytes: &[u8],
    plan: &Plan,
    out: &mut K,
) -> Worked
    requires output { Makes F.FnOnce (sight K.holds K.faults K.stalls) makers.to_output }
    requires memory { Makes M.FnOnce (sight ⟦<MemSink as Sink>⟧.holds ⟦<MemSink as Sink>⟧.faults ⟦<MemSink as Sink>⟧.stalls) makers.to_memory }
    requires valid { IsValid plan.now }
    requires range { IsInRange settings.now.run }
    requires moves { plan.now.move_after < 2 ^ 63 }
    requires short { length bytes.now ≤ longest mode }
    ensures printed { PrintedIn mode settings.now bytes.now plan.now result.ending result.journal
        (K.holds out.old) (K.holds out.new) }
    ensures ran { EndsRun result.ending }
    ensures plan { (f : TheFault) → result.ending ≢ Ending.Refused f }
    ensures cause { result.ending ≡ Ending.WriteFault → Rose (K.faults out.old) (K.faults out.new)
        ⊎ Rose (K.stalls out.old) (K.stalls out.new) }
    ensures budget { result.ending ≡ Ending.BudgetSpent → HasBudget mode }
    ensures retired { (agent : ℕ) → result.ending ≡ Ending.Retired agent → mode ≡ Mode.Cut }
    ensures illegal { (line : ℕ) → result.ending ≡ Ending.Illegal line → mode ≡ Mode.Replay }
    ensures journal { (HasRun mode → ⊥) → result.journal ≡ [] }
{
    match mode {
        Mode::Seq => {
            limits_are_kept(plan);
            let outcome = write_run(alloc, plan, settings.run.budget, out);
            still(alloc, ending_of(outcome))
        }
        Mode::Check => {
            let outcome = write_check(alloc, plan, out);
            still(alloc, ending_of(outcome))
        }
        Mode::Run => {
            let ran = write_optimistic(makers.to_output, alloc, plan, settings, out);
            Worked {
                ending: ending_of(ran.outcome),
                journal: ran.journal,
            }
        }
        Mode::Demo => {
            let ran = write_demo(makers.to_memory, alloc, plan, settings, out);
            Worked {
                ending: ending_of(ran.outcome),
                journal: ran.journal,
            }
        }
        Mode::Upgrade => still(alloc, write_upgrade(alloc, plan, out)),
        Mode::Place => still(alloc, write_place(alloc, plan, settings.run.budget, out)),
        Mode::Cut => still(alloc, write_cut(alloc, plan, settings, out)),
        Mode::Replay => write_replay(alloc, plan, parts(bytes).1, out),
        Mode::Lowest => {
            let ran = write_lowest(alloc, plan, settings, out);
            Worked {
                ending: ending_of(ran.outcome),
                journal: ran.journal,
            }
        }
    }
}

/// Writes what the mode writes of a scenario's text.
fn run_text<
    K: Sink,
    F: FnOnce(&Plan, &RunSettings, &mut K) -> Ran,
    M: FnOnce(&Plan, &RunSettings, &mut MemSink) -> Ran,
>(
    makers: Makers<F, M>,
    alloc: Global,
    settings: &Settings,
    bytes: &[u8],
    scenario: &[u8],
    out: &mut K,
) -> Worked
    requires output { Makes F.FnOnce (sight K.holds K.faults K.stalls) makers.to_output }
    requires memory { Makes M.FnOnce (sight ⟦<MemSink as Sink>⟧.holds ⟦<MemSink as Sink>⟧.faults ⟦<MemSink as Sink>⟧.stalls) makers.to_memory }
    requires few { length scenario.now ≤ 4194304 }
    requires short { length bytes.now ≤ longest settings.now.mode }
    requires scenario { scenario.now ≡ scenario_in settings.now.mode bytes.now }
    requires range { IsInRange settings.now.run }
    ensures printed { PrintedWhere true settings.now (Some bytes.now) result.ending result.journal
        (K.holds out.old) (K.holds out.new) }
    ensures refused { (f : TheFault) → result.ending ≡ Ending.Refused f → plan_of scenario.now ≡ Err f }
    ensures accepted { Accepts result.ending → (p : ThePlan) × (plan_of scenario.now ≡ Ok p) }
    ensures fault { result.ending ≡ Ending.WriteFault → Rose (K.faults out.old) (K.faults out.new)
        ⊎ Rose (K.stalls out.old) (K.stalls out.new) }
    ensures ran { EndsRun result.ending }
    ensures budget { result.ending ≡ Ending.BudgetSpent → HasBudget settings.now.mode }
    ensures retired { (agent : ℕ) → result.ending ≡ Ending.Retired agent → settings.now.mode ≡ Mode.Cut }
    ensures illegal { (line : ℕ) → result.ending ≡ Ending.Illegal line → settings.now.mode ≡ Mode.Replay }
    ensures unfit { (f : TheFault) → plan_of scenario.now ≡ Err f → (result.journal ≡ []) × (out.new ≡ out.old) }
    ensures journal { (HasRun settings.now.mode → ⊥) → result.journal ≡ [] }
{
    match read(alloc, scenario) {
        Ok(plan) => {
            read_plans_can_be_printed(scenario, &plan);
            write_output(makers, alloc, settings.mode, settings, bytes, &plan, out)
        }
        Err(ScenarioFault::Memory) => still(alloc, Ending::Memory),
        Err(fault) => still(alloc, Ending::Refused(fault)),
    }
}

/// Reads the input and does what the mode does.
fn run_input<
    S: Source,
    K: Sink,
    F: FnOnce(&Plan, &RunSettings, &mut K) -> Ran,
    M: FnOnce(&Plan, &RunSettings, &mut MemSink) -> Ran,
>(makers: Makers<F, M>, alloc: Global, settings: &Settings, input: &mut S, out: &mut K) -> Worked
    requires output { Makes F.FnOnce (sight K.holds K.faults K.stalls) makers.to_output }
    requires memory { Makes M.FnOnce (sight ⟦<MemSink as Sink>⟧.holds ⟦<MemSink as Sink>⟧.faults ⟦<MemSink as Sink>⟧.stalls) makers.to_memory }
    requires range { IsInRange settings.now.run }
    ensures printed { PrintedWhere true settings.now (S.held input.old) result.ending result.journal
        (K.holds out.old) (K.holds out.new) }
    ensures nothing { WritesNothing result.ending → (result.journal ≡ []) × (out.new ≡ out.old) }
    ensures refused { (f : TheFault) → result.ending ≡ Ending.Refused f →
        IfSome (S.held input.old) (IsRefused settings.now.mode f) }
    ensures too_long { result.ending ≡ Ending.TooLong → IfSome (S.held input.old) (IsLongScenario settings.now.mode)
        × IsTakenAtMost (longest settings.now.mode) (S.held input.old) (S.held input.new) }
    ensures long_input { result.ending ≡ Ending.InputTooLong → IfSome (S.held input.old) (IsLongInput settings.now.mode)
        × IsTakenAtMost (longest settings.now.mode) (S.held input.old) (S.held input.new) }
    ensures accepted { Accepts result.ending → IfSome (S.held input.old) (IsAccepted settings.now.mode) }
    ensures read { ReadsAll result.ending → IsAtEnd (S.held input.new) }
    ensures read_fault { result.ending ≡ Ending.ReadFault → Rose (S.faults input.old) (S.faults input.new) }
    ensures write_fault { result.ending ≡ Ending.WriteFault → Rose (K.faults out.old) (K.faults out.new)
        ⊎ Rose (K.stalls out.old) (K.stalls out.new) }
    ensures words { result.ending ≢ Ending.Words }
    ensures budget { result.ending ≡ Ending.BudgetSpent → HasBudget settings.now.mode }
    ensures retired { (agent : ℕ) → result.ending ≡ Ending.Retired agent → settings.now.mode ≡ Mode.Cut }
    ensures illegal { (line : ℕ) → result.ending ≡ Ending.Illegal line → settings.now.mode ≡ Mode.Replay }
    ensures unfit { IfSome (S.held input.old) (λ b. IsUnfit settings.now.mode b → (result.journal ≡ []) × (out.new ≡ out.old)) }
    ensures journal { (HasRun settings.now.mode → ⊥) → result.journal ≡ [] }
{
    let taken = match read_whole(alloc, input, longest(settings.mode)) {
        Ok(taken) => taken,
        Err(Unread::Failed) => return still(alloc, Ending::ReadFault),
        Err(Unread::Memory) => return still(alloc, Ending::Memory),
    };
    let bytes = taken.bytes.as_slice();
    let scenario = scenario_in(settings.mode, bytes);
    if scenario.len() > LONGEST_SCENARIO {
        return still(alloc, Ending::TooLong);
    }
    if taken.is_past {
        return still(alloc, Ending::InputTooLong);
    }
    run_text(makers, alloc, settings, bytes, scenario, out)
}

/// Does what the mode does with the generated scenario.
fn run_generated<
    K: Sink,
    F: FnOnce(&Plan, &RunSettings, &mut K) -> Ran,
    M: FnOnce(&Plan, &RunSettings, &mut MemSink) -> Ran,
>(makers: Makers<F, M>, alloc: Global, settings: &Settings, out: &mut K) -> Worked
    requires output { Makes F.FnOnce (sight K.holds K.faults K.stalls) makers.to_output }
    requires memory { Makes M.FnOnce (sight ⟦<MemSink as Sink>⟧.holds ⟦<MemSink as Sink>⟧.faults ⟦<MemSink as Sink>⟧.stalls) makers.to_memory }
    requires range { IsInRange settings.now.run }
    ensures printed { PrintedWhere false settings.now None result.ending result.journal
        (K.holds out.old) (K.holds out.new) }
    ensures ran { Accepts result.ending ⊎ (result.ending ≡ Ending.Memory) }
    ensures write_fault { result.ending ≡ Ending.WriteFault → Rose (K.faults out.old) (K.faults out.new)
        ⊎ Rose (K.stalls out.old) (K.stalls out.new) }
    ensures budget { result.ending ≡ Ending.BudgetSpent → HasBudget settings.now.mode }
    ensures retired { (agent : ℕ) → result.ending ≡ Ending.Retired agent → settings.now.mode ≡ Mode.Cut }
    ensures illegal { (line : ℕ) → result.ending ≡ Ending.Illegal line → settings.now.mode ≡ Mode.Replay }
    ensures journal { (HasRun settings.now.mode → ⊥) → result.journal ≡ [] }
{
    match scenario_of(alloc, settings.seed) {
        Ok(plan) => write_output(makers, alloc, settings.mode, settings, &[], &plan, out),
        Err(_) => still(alloc, Ending::Memory),
    }
}

/// Does what the mode does, with the input where the mode reads it.
fn run_mode<
    S: Source,
    K: Sink,
    F: FnOnce(&Plan, &RunSettings, &mut K) -> Ran,
    M: FnOnce(&Plan, &RunSettings, &mut MemSink) -> Ran,
>(makers: Makers<F, M>, alloc: Global, settings: &Settings, input: &mut S, out: &mut K) -> Worked
    requires output { Makes F.FnOnce (sight K.holds K.faults K.stalls) makers.to_output }
    requires memory { Makes M.FnOnce (sight ⟦<MemSink as Sink>⟧.holds ⟦<MemSink as Sink>⟧.faults ⟦<MemSink as Sink>⟧.stalls) makers.to_memory }
    requires range { IsInRange settings.now.run }
    ensures printed { PrintedOf settings.now (S.held input.old) result.ending result.journal
        (K.holds out.old) (K.holds out.new) }
    ensures nothing { WritesNothing result.ending → (result.journal ≡ []) × (out.new ≡ out.old) }
    ensures refused { (f : TheFault) → result.ending ≡ Ending.Refused f →
        IfSome (given settings.now.mode (S.held input.old)) (IsRefused settings.now.mode f) }
    ensures too_long { result.ending ≡ Ending.TooLong →
        IfSome (given settings.now.mode (S.held input.old)) (IsLongScenario settings.now.mode)
        × IsTakenAtMost (longest settings.now.mode) (S.held input.old) (S.held input.new) }
    ensures long_input { result.ending ≡ Ending.InputTooLong →
        IfSome (given settings.now.mode (S.held input.old)) (IsLongInput settings.now.mode)
        × IsTakenAtMost (longest settings.now.mode) (S.held input.old) (S.held input.new) }
    ensures accepted { Accepts result.ending →
        IfSome (given settings.now.mode (S.held input.old)) (IsAccepted settings.now.mode) }
    ensures read { reads settings.now.mode ≡ true → ReadsAll result.ending → IsAtEnd (S.held input.new) }
    ensures unread { reads settings.now.mode ≡ false → (input.new ≡ input.old)
        × (Accepts result.ending ⊎ (result.ending ≡ Ending.Memory)) }
    ensures read_fault { result.ending ≡ Ending.ReadFault → Rose (S.faults input.old) (S.faults input.new) }
    ensures write_fault { result.ending ≡ Ending.WriteFault → Rose (K.faults out.old) (K.faults out.new)
        ⊎ Rose (K.stalls out.old) (K.stalls out.new) }
    ensures words { result.ending ≢ Ending.Words }
    ensures budget { result.ending ≡ Ending.BudgetSpent → HasBudget settings.now.mode }
    ensures retired { (agent : ℕ) → result.ending ≡ Ending.Retired agent → settings.now.mode ≡ Mode.Cut }
    ensures illegal { (line : ℕ) → result.ending ≡ Ending.Illegal line → settings.now.mode ≡ Mode.Replay }
    ensures unfit { IfSome (given settings.now.mode (S.held input.old))
        (λ b. IsUnfit settings.now.mode b → (result.journal ≡ []) × (out.new ≡ out.old)) }
    ensures journal { (HasRun settings.now.mode → ⊥) → result.journal ≡ [] }
{
    if settings.mode.reads() {
        return run_input(makers, alloc, settings, input, out);
    }
    run_generated(makers, alloc, settings, out)
}

/// Offers the line of an ending and reports it.
fn report_of<E: Sink>(worked: Worked, err: &mut E) -> Report
    ensures status { result.status ≡ status_of result.ending }
    ensures ending { result.ending ≡ worked.ending }
    ensures journal { result.journal ≡ worked.journal }
    ensures silent { worked.ending ≡ Ending.Done → err.new ≡ err.old }
    ensures told { worked.ending ≢ Ending.Done → Offers
        (sight E.holds E.faults E.stalls err.old)
        (sight E.holds E.faults E.stalls err.new)
        (error_line worked.ending) }
{
    offer(err, &worked.ending);
    Report {
        status: status_of(&worked.ending),
        ending: worked.ending,
        journal: worked.journal,
    }
}

/// Does what the words ask for, where there are threads or none.
fn serve<
    S: Source,
    K: Sink,
    E: Sink,
    F: FnOnce(&Plan, &RunSettings, &mut K) -> Ran,
    M: FnOnce(&Plan, &RunSettings, &mut MemSink) -> Ran,
>(
    makers: Makers<F, M>,
    threads: bool,
    alloc: Global,
    words: &Vec<String>,
    input: &mut S,
    out: &mut K,
    err: &mut E,
) -> Report
    requires output { Makes F.FnOnce (sight K.holds K.faults K.stalls) makers.to_output }
    requires memory { Makes M.FnOnce (sight ⟦<MemSink as Sink>⟧.holds ⟦<MemSink as Sink>⟧.faults ⟦<MemSink as Sink>⟧.stalls) makers.to_memory }
    ensures status { result.status ≡ status_of result.ending }
    ensures served { IsServed (record {
      settings = settings_served threads (settings_of (map string_bytes words.now.items));
      ending = result.ending;
      journal = result.journal;
      input = record { held = S.held input.old; faults = S.faults input.old };
      input_after = record { held = S.held input.new; faults = S.faults input.new };
      out = sight K.holds K.faults K.stalls out.old;
      out_after = sight K.holds K.faults K.stalls out.new;
      err = sight E.holds E.faults E.stalls err.old;
      err_after = sight E.holds E.faults E.stalls err.new;
    }) }
    ensures nothing { WritesNothing result.ending → out.new ≡ out.old }
    ensures unfit { IfSome (settings_served threads (settings_of (map string_bytes words.now.items)))
        (λ s. IfSome (given s.mode (S.held input.old)) (λ b. IsUnfit s.mode b → out.new ≡ out.old)) }
    ensures untouched { settings_served threads (settings_of (map string_bytes words.now.items)) ≡ None →
        (input.new ≡ input.old) × (out.new ≡ out.old) }
    ensures silent { result.ending ≡ Ending.Done → err.new ≡ err.old }
{
    let settings = match read_served(alloc, words, threads) {
        Ok(settings) => settings,
        Err(WordsFault::Words) => return report_of(still(alloc, Ending::Words), err),
        Err(WordsFault::Memory) => return report_of(still(alloc, Ending::Memory), err),
    };
    let worked = run_mode(makers, alloc, &settings, input, out);
    report_of(worked, err)
}

/// All that the program does. `words` are those after the program's name, as `pm_words` reads them: the mode `seq`, for
/// the sequential run of the scenario that `input` holds; `run`, for the optimistic run of it, which prints the same
/// trace; `lowest`, for the run of it that never rolls back, which prints the same trace; `check`, for how many parts it
/// has; `upgrade`, for the scenario in the present form; `place`, for where its variables are best kept; `cut`, for the
/// scenario whose run is the rest of its run from a time on; `replay`, for what a journal behind the scenario commits; or
/// `demo`, for the optimistic run of a generated scenario, in one line, for which the input isn't read. A run's trace is
/// written to `out`, each line by itself, for as many steps, in modes `run`, `lowest` and `demo` deliveries, as the option
/// `budget` says; at each ending but `Done` the line of that ending is offered to `err`. Modes `run` and `demo` are made by at most as many workers as the
/// option `workers` says, which ask `gate` before each of their turns: the first is the calling thread, each other has a
/// thread of its own and is waited for. With no worker, and in each other mode, nothing asks `gate`.
pub fn top<R: Threads + Sync, S: Source, K: Sink, E: Sink, G: Gate + Sync>(
    rt: &R,
    alloc: Global,
    words: &Vec<String>,
    input: &mut S,
    out: &mut K,
    err: &mut E,
    gate: &G,
) -> Report
    ensures status { result.status ≡ status_of result.ending }
    ensures served { IsServed (record {
      settings = settings_of (map string_bytes words.now.items);
      ending = result.ending;
      journal = result.journal;
      input = record { held = S.held input.old; faults = S.faults input.old };
      input_after = record { held = S.held input.new; faults = S.faults input.new };
      out = sight K.holds K.faults K.stalls out.old;
      out_after = sight K.holds K.faults K.stalls out.new;
      err = sight E.holds E.faults E.stalls err.old;
      err_after = sight E.holds E.faults E.stalls err.new;
    }) }
    ensures nothing { WritesNothing result.ending → out.new ≡ out.old }
    ensures unfit { IfSome (settings_of (map string_bytes words.now.items))
        (λ s. IfSome (given s.mode (S.held input.old)) (λ b. IsUnfit s.mode b → out.new ≡ out.old)) }
    ensures untouched { settings_of (map string_bytes words.now.items) ≡ None →
        (input.new ≡ input.old) × (out.new ≡ out.old) }
    ensures silent { result.ending ≡ Ending.Done → err.new ≡ err.old }
{
    let to_output = |plan: &Plan, settings: &RunSettings, out: &mut K|
        requires { IsSync R.row × IsSync G.row × IsValid plan.now × IsInRange settings.now }
    { run(Some(Hands { rt, gate }), alloc, plan, settings, out) };
    let to_memory = |plan: &Plan, settings: &RunSettings, out: &mut MemSink|
        requires { IsSync R.row × IsSync G.row × IsValid plan.now × IsInRange settings.now }
    { run(Some(Hands { rt, gate }), alloc, plan, settings, out) };
    let makers = Makers {
        to_output,
        to_memory,
    };
    serve(makers, true, alloc, words, input, out, err)
}

/// The same on this thread alone: words that ask for a run by workers are refused, where `top` would start threads.
pub fn plain<S: Source, K: Sink, E: Sink>(
    alloc: Global,
    words: &Vec<String>,
    input: &mut S,
    out: &mut K,
    err: &mut E,
) -> Report
    ensures status { result.status ≡ status_of result.ending }
    ensures served { IsServed (record {
      settings = settings_alone (settings_of (map string_bytes words.now.items));
      ending = result.ending;
      journal = result.journal;
      input = record { held = S.held input.old; faults = S.faults input.old };
      input_after = record { held = S.held input.new; faults = S.faults input.new };
      out = sight K.holds K.faults K.stalls out.old;
      out_after = sight K.holds K.faults K.stalls out.new;
      err = sight E.holds E.faults E.stalls err.old;
      err_after = sight E.holds E.faults E.stalls err.new;
    }) }
    ensures nothing { WritesNothing result.ending → out.new ≡ out.old }
    ensures unfit { IfSome (settings_alone (settings_of (map string_bytes words.now.items)))
        (λ s. IfSome (given s.mode (S.held input.old)) (λ b. IsUnfit s.mode b → out.new ≡ out.old)) }
    ensures untouched { settings_alone (settings_of (map string_bytes words.now.items)) ≡ None →
        (input.new ≡ input.old) × (out.new ≡ out.old) }
    ensures silent { result.ending ≡ Ending.Done → err.new ≡ err.old }
{
    let to_output = |plan: &Plan, settings: &RunSettings, out: &mut K| run_plain(
        alloc, plan, settings, out,
    );
    let to_memory = |plan: &Plan, settings: &RunSettings, out: &mut MemSink| run_plain(
        alloc, plan, settings, out,
    );
    let makers = Makers {
        to_output,
        to_memory,
    };
    serve(makers, false, alloc, words, input, out, err)
}
