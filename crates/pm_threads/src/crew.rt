// A run on threads as it goes.
ghost use Rattle.std.specs.Prelude.{◌≡◌, ◌↔◌, ◌≤◌, ◌<◌, ◌+◌, ◌^◌, false, true, length, IfOk, OnErr, OnOk};
ghost use Rattle.pm_base.specs.declared.stamp.Line.TheVariants.{End};
ghost use Rattle.pm_kernel.specs.Engines.{HasStaged, IsMoved, first_run, world_of};
ghost use Rattle.pm_plan.specs.Plans.{IsValid};
ghost use Rattle.pm_sim.specs.Journals.{made};
ghost use Rattle.pm_sim.specs.Worlds.{least_line};
ghost use Rattle.pm_threads.specs.Crews.{Extends, HasClosed, Stands, Stays, WentOn, Worked, run_of};

use crate::stories::{ahead_of, histories, set_windows};
use pm_base::{Entry, Event, Journal, Line, List, Memory};
use pm_cell::{Cell, cells, commit, least, settle};
use pm_history::merge;
use pm_io::Gate;
use pm_kernel::Stage;
use pm_plan::Plan;
use pm_workers::epoch_turns;
use std::alloc::Global;
use std::marker::Model;
use std::mem::replace;
use std::thread::Threads;

/// A run whose deliveries workers make in threads of their own, at as many cells as the plan has processes.
#[derive(Drop)]
pub struct Crew<'a, R, G> {
    rt: R,
    gate: &'a G,
    workers: u32,
    // How many of them the next epoch has: making threads costs more than a small epoch does.
    hands: u32,
    plan: &'a Plan,
    cells: Vec<Cell<'a>>,
    journal: Vec<Event>,
    spoilt: bool,
}

impl<'a, R, G> Model for Crew<'a, R, G> {
    ghost use Rattle.pm_threads.specs.Crews.{IsCrew, run_of};
    ghost use Rattle.pm_kernel.specs.Engines.{RunView};
    ghost use Rattle.std.specs.Coded.{codes};
    ghost use Rattle.pm_base.specs.contracts.program.Expr as expr;
    ghost use Rattle.pm_base.specs.contracts.program.Stmt as stmt;

    ghost Value = { RunView };

    ghost coded = { Prim.hlevel (codes, expr.the_row.coded, stmt.the_row.coded) };

    ghost view = { λ c. run_of c.plan.now c.journal.items c.spoilt };

    ghost invariant = { λ c. IsCrew c.plan.now c.workers c.hands c.cells.items c.journal.items c.spoilt };
}

impl<'a, R: Threads + Sync + Copy, G: Gate + Sync> Crew<'a, R, G> {
    /// A run before its first event, by so many workers.
    pub fn begin(
        alloc: Global,
        plan: &'a Plan,
        rt: R,
        gate: &'a G,
        workers: u32,
    ) -> Result<Crew<'a, R, G>, Memory>
        requires valid { IsValid plan.now }
        requires workers { 1 ≤ workers }
        ensures { IfOk result (λ c. c ≡ first_run plan.now) }
    {
        let mut cells = cells(alloc, plan)?.into_vec();
        settle(alloc, cells.as_mut_slice())?;
        Ok(Crew {
            rt,
            gate,
            workers,
            hands: workers,
            plan,
            cells,
            journal: Vec::new(alloc),
            spoilt: false,
        })
    }
}

// The workers' turns; how many deliveries they made.
fn work<R: Threads + Sync, G: Gate + Sync>(
    rt: &R,
    alloc: Global,
    gate: &G,
    workers: u32,
    cells: &mut Vec<Cell<'_>>,
    quota: u64,
) -> Result<u64, Memory>
    requires workers { 1 ≤ workers }
    requires few { length cells.old.items < 2 ^ 32 }
    ensures worked { IfOk result (λ n. Worked quota n cells.old.items cells.new.items) }
{
    if cells.is_empty() {
        return Ok(0);
    }
    let stations = List::from_vec(replace(cells, Vec::new(alloc)));
    let (stations, count) = epoch_turns(rt, alloc, stations, workers, quota, gate)?;
    *cells = stations.into_vec();
    if count.memory {
        return Err(Memory);
    }
    Ok(count.made)
}

// An epoch: the workers' turns within the window, all messages brought to their receivers, and the stories of what was
// heard merged and noted.
fn epoch<R: Threads + Sync, G: Gate + Sync>(
    rt: &R,
    alloc: Global,
    gate: &G,
    workers: u32,
    plan: &Plan,
    cells: &mut Vec<Cell<'_>>,
    journal: &mut Vec<Event>,
    window: Option<Line>,
    quota: u64,
) -> Result<u64, Memory>
    requires valid { IsValid plan.now }
    requires workers { 1 ≤ workers }
    requires stays { Stays plan.now journal.old.items cells.old.items }
    requires few { made journal.old.items + quota ≤ 20000000 }
    ensures went { IfOk result (λ n. WentOn plan.now window n journal.old.items journal.new.items) }
    ensures stands { OnOk result (Stands plan.now journal.new.items cells.new.items) }
    ensures most { IfOk result (λ n. n ≤ quota) }
    ensures moves { IfOk result (λ n. n ≡ 0 → 0 < quota → IsMoved window (run_of plan.now journal.old.items false)) }
    ensures grown { Extends journal.old.items journal.new.items }
{
    set_windows(cells, window);
    let made = work(rt, alloc, gate, workers, cells, quota)?;
    settle(alloc, cells.as_mut_slice())?;
    let stories = histories(alloc, cells.as_slice())?;
    let events = merge(alloc, &stories)?;
    journal.extend_from_slice(events.as_slice())?;
    Ok(made)
}

// The Commit behind it.
fn close(
    alloc: Global,
    plan: &Plan,
    cells: &mut Vec<Cell<'_>>,
    journal: &mut Vec<Event>,
) -> Result<List<Entry>, Memory>
    requires valid { IsValid plan.now }
    requires stands { Stands plan.now journal.old.items cells.old.items }
    ensures closed { IfOk result (λ es. HasClosed plan.now es journal.old.items journal.new.items) }
    ensures stays { OnOk result (Stays plan.now journal.new.items cells.new.items) }
    ensures grown { Extends journal.old.items journal.new.items }
{
    let line = least(cells.as_slice());
    journal.push(Event::Commit { line })?;
    commit(alloc, cells.as_mut_slice(), line)
}

// A stage: an epoch, and the Commit behind it.
fn stage<R: Threads + Sync, G: Gate + Sync>(
    rt: &R,
    alloc: Global,
    gate: &G,
    workers: u32,
    plan: &Plan,
    cells: &mut Vec<Cell<'_>>,
    journal: &mut Vec<Event>,
    window: Option<Line>,
    quota: u64,
) -> Result<Stage, Memory>
    requires valid { IsValid plan.now }
    requires workers { 1 ≤ workers }
    requires stays { Stays plan.now journal.old.items cells.old.items }
    requires few { made journal.old.items + quota ≤ 20000000 }
    ensures done { IfOk result (λ s. HasStaged window s.made s.entries
        (run_of plan.now journal.old.items false) (run_of plan.now journal.new.items false)) }
    ensures stays { OnOk result (Stays plan.now journal.new.items cells.new.items) }
    ensures most { IfOk result (λ s. s.made ≤ quota) }
    ensures moves { IfOk result (λ s. s.made ≡ 0 → 0 < quota →
        IsMoved window (run_of plan.now journal.old.items false)) }
    ensures grown { Extends journal.old.items journal.new.items }
{
    let made = epoch(
        rt, alloc, gate, workers, plan, cells, journal, window, quota,
    )?;
    let entries = close(alloc, plan, cells, journal)?;
    Ok(Stage { made, entries })
}

// How many deliveries an epoch made that is worth its threads.
const WORTH: u64 = 1_000;

impl<'a, R: Threads + Sync + Copy, G: Gate + Sync> Crew<'a, R, G> {
    /// The least moment of all messages on their way, or the end exactly where there is none.
    pub fn least(&self) -> Line
        requires { self.now.spoilt ≡ false }
        ensures { result ≡ least_line (world_of self.now) }
    {
        least(self.cells.as_slice())
    }

    /// Whether nothing is left to be delivered.
    pub fn is_over(&self) -> bool
        requires { self.now.spoilt ≡ false }
        ensures { (result ≡ true) ↔ (least_line (world_of self.now) ≡ End) }
    {
        match self.least() {
            Line::End => true,
            Line::At(_) => false,
        }
    }

    /// The bound of an epoch that lets the next steps of so many agents through; none where it needs none. No theorem needs
    /// it.
    pub fn ahead(&self, alloc: Global, count: usize) -> Result<Option<Line>, Memory> {
        ahead_of(alloc, self.cells.as_slice(), count)
    }

    // How many workers an epoch of at most so many deliveries has.
    fn hands(&self, quota: u64) -> u32
        ensures { 1 ≤ result }
    {
        if quota == 0 { 1 } else { self.hands }
    }

    // How many workers the next epoch has, after one that made so many deliveries of at most so many.
    fn choose(&mut self, quota: u64, made: u64)
        ensures { self.new ≡ self.old }
    {
        if quota > 0 {
            self.hands = if made < WORTH { 1 } else { self.workers };
        }
    }

    /// An epoch of at most `quota` deliveries, each let through by the window, and a Commit at the least line behind it.
    /// Where none is made, the window is above the least line and the quota isn't 0, nothing was left to be delivered.
    /// After `Memory` the events are as they were, and no other stage can be made.
    pub fn stage(
        &mut self,
        alloc: Global,
        window: Option<Line>,
        quota: u64,
    ) -> Result<Stage, Memory>
        requires valid { IsValid self.old.plan }
        requires well { self.old.spoilt ≡ false }
        requires few { made self.old.journal + quota ≤ 20000000 }
        ensures done { IfOk result (λ s. HasStaged window s.made s.entries self.old self.new) }
        ensures most { IfOk result (λ s. s.made ≤ quota) }
        ensures moves { IfOk result (λ s. s.made ≡ 0 → 0 < quota → IsMoved window self.old) }
        ensures kept { OnErr result (self.new.journal ≡ self.old.journal) }
        ensures plan { self.new.plan ≡ self.old.plan }
    {
        let closed = self.journal.len();
        let hands = self.hands(quota);
        self.spoilt = true;
        let done = stage(
            &self.rt,
            alloc,
            self.gate,
            hands,
            self.plan,
            &mut self.cells,
            &mut self.journal,
            window,
            quota,
        );
        match done {
            Ok(stage) => {
                self.spoilt = false;
                self.choose(quota, stage.made);
                Ok(stage)
            }
            Err(_) => {
                self.journal.truncate(closed);
                Err(Memory)
            }
        }
    }

    /// The events so far.
    pub fn into_journal(self) -> Journal
        ensures { result ≡ self.entry.journal }
    {
        List::from_vec(self.journal)
    }
}
