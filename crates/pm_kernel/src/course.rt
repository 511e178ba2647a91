// A run as it goes: its world, and the events that led to it.
ghost use Rattle.std.specs.Prelude.{◌≡◌, ◌≤◌, ◌<◌, ◌+◌, ◌++◌, ◌∷◌, [], if◌then◌else◌, true, false, length, IfOk, OnOk};
ghost use Rattle.pm_base.specs.declared.run.Event.TheVariants.{Commit as TheCommit};
ghost use Rattle.pm_core.specs.Views.{committed};
ghost use Rattle.pm_core.specs.Picks.{IsHeld};
ghost use Rattle.pm_sim.specs.Worlds.{clps_of, handed, least_line, may_commit};
ghost use Rattle.pm_kernel.specs.Courses.{AreHeld, Extends, IsAlone, IsCounted, IsUntouched, SameCount, Stood, WentOn, run_of};
ghost use Rattle.pm_kernel.specs.Engines.{HasStaged, IsMoved, first_run};
ghost use Rattle.pm_plan.specs.Plans.{IsValid};

use crate::engine::Stage;
use crate::resting::Resting;
use crate::stirred::Stirred;
use pm_base::{Entry, Event, Line, List, Memory};
use pm_core::World;
use pm_plan::Plan;
use std::alloc::Global;

/// The world of a run, and its events so far.
#[derive(Drop)]
pub struct Course<'a> {
    pub world: World<'a>,
    pub journal: Vec<Event>,
    pub stirred: Stirred,
    pub resting: Resting,
    pub count: u32,
}

impl<'a> Course<'a> {
    /// The first world, and no event.
    pub fn begin(alloc: Global, plan: &'a Plan) -> Result<Course<'a>, Memory>
        requires { IsValid plan.now }
        ensures first { IfOk result (λ c. run_of c false ≡ first_run plan.now) }
        ensures stood { IfOk result (λ c. IsAlone c false) }
    {
        let world = World::first(alloc, plan)?;
        let count = world.count();
        Ok(Course {
            world,
            journal: Vec::new(alloc),
            stirred: Stirred::all(alloc, count)?,
            resting: Resting::none(alloc, plan.clps.len() as u32),
            count,
        })
    }

    // Nothing is delivered to the process until something is sent to it, or the window lets the moment through for which
    // it waits.
    fn rest(&mut self, number: u32) -> Result<(), Memory>
        ensures { IsUntouched self.old self.new }
    {
        self.stirred.clear(number);
        if let Some(moment) = self.world.moment(number) {
            self.resting.enter(moment)?;
        }
        Ok(())
    }

    // Agents that wait for a moment which the window lets through may have something.
    fn rouse(&mut self, window: Option<Line>)
        ensures { IsUntouched self.old self.new }
    {
        for _ in 0..self.resting.count() {
            let Some(number) = self.resting.leave(window) else {
                return;
            };
            self.stirred.set(number);
        }
    }

    // A delivery to that process, where the window lets one through; how many were made.
    fn turn(&mut self, alloc: Global, number: u32, window: Option<Line>) -> Result<u64, Memory>
        requires few { self.old.world.made < 20000000 }
        requires well { self.old.world.spoilt ≡ false }
        requires there { number < clps_of self.old.world.plan + length self.old.world.plan.agents }
        ensures gone { IfOk result (λ n. WentOn window n self.old self.new) }
        ensures one { IfOk result (λ n. n ≤ 1) }
        ensures held { IfOk result (λ n. n ≡ 0 → IsHeld self.new.world window number) }
        ensures plan { self.new.world.plan ≡ self.old.world.plan }
        ensures grown { Extends self.old self.new }
        ensures count { SameCount self.old self.new }
    {
        let from = match self.world.pick(number, window) {
            Some(from) => from,
            None => {
                self.rest(number)?;
                return Ok(0);
            }
        };
        self.world.deliver(alloc, number, from)?;
        self.stirred.stir(self.world.receivers());
        self.journal.push(Event::Deliver { to: number, from })?;
        Ok(1)
    }

    // A round in number order, of one delivery each, over the processes that may have something; of at most so many
    // deliveries.
    fn round(&mut self, alloc: Global, window: Option<Line>, left: u64) -> Result<u64, Memory>
        requires few { self.old.world.made + left ≤ 20000000 }
        requires well { self.old.world.spoilt ≡ false }
        requires all { IsCounted self.old }
        ensures gone { IfOk result (λ n. WentOn window n self.old self.new) }
        ensures most { IfOk result (λ n. n ≤ left) }
        ensures plan { self.new.world.plan ≡ self.old.world.plan }
        ensures grown { Extends self.old self.new }
        ensures count { SameCount self.old self.new }
    {
        let mut made: u64 = 0;
        let mut first: u32 = 0;
        while made < left {
            let Some(number) = self.stirred.next(first) else {
                return Ok(made);
            };
            made += self.turn(alloc, number, window)?;
            first = number + 1;
        }
        Ok(made)
    }

    // A round over all processes.
    fn last_round(&mut self, alloc: Global, window: Option<Line>, left: u64) -> Result<u64, Memory>
        requires few { self.old.world.made + left ≤ 20000000 }
        requires well { self.old.world.spoilt ≡ false }
        requires all { IsCounted self.old }
        ensures gone { IfOk result (λ n. WentOn window n self.old self.new) }
        ensures most { IfOk result (λ n. n ≤ left) }
        ensures idle { IfOk result (λ n. n ≡ 0 → 0 < left → AreHeld window self.old.count self.new) }
        ensures plan { self.new.world.plan ≡ self.old.world.plan }
        ensures grown { Extends self.old self.new }
        ensures count { SameCount self.old self.new }
    {
        let mut made: u64 = 0;
        for number in 0..self.count {
            if made == left {
                return Ok(made);
            }
            made += self.turn(alloc, number, window)?;
        }
        Ok(made)
    }

    // Rounds over the processes that may have something, until so many deliveries are made or a round makes none.
    fn rounds(&mut self, alloc: Global, window: Option<Line>, quota: u64) -> Result<u64, Memory>
        requires few { self.old.world.made + quota ≤ 20000000 }
        requires well { self.old.world.spoilt ≡ false }
        requires all { IsCounted self.old }
        ensures gone { IfOk result (λ n. WentOn window n self.old self.new) }
        ensures most { IfOk result (λ n. n ≤ quota) }
        ensures plan { self.new.world.plan ≡ self.old.world.plan }
        ensures grown { Extends self.old self.new }
        ensures count { SameCount self.old self.new }
    {
        self.rouse(window);
        let mut made: u64 = 0;
        while made < quota {
            let more = self.round(alloc, window, quota - made)?;
            if more == 0 {
                return Ok(made);
            }
            made += more;
        }
        Ok(made)
    }

    /// Rounds until so many deliveries are made, or none is left that the window lets through. A process that was found
    /// to have nothing is passed over until something is sent to it or the window lets its moment through; only where
    /// nothing was delivered at all, each is looked at before it is said that none has anything.
    pub fn epoch(&mut self, alloc: Global, window: Option<Line>, quota: u64) -> Result<u64, Memory>
        requires few { self.old.world.made + quota ≤ 20000000 }
        requires well { self.old.world.spoilt ≡ false }
        requires all { IsCounted self.old }
        ensures gone { IfOk result (λ n. WentOn window n self.old self.new) }
        ensures most { IfOk result (λ n. n ≤ quota) }
        ensures idle { IfOk result (λ n. n ≡ 0 → 0 < quota → AreHeld window self.old.count self.new) }
        ensures plan { self.new.world.plan ≡ self.old.world.plan }
        ensures grown { Extends self.old self.new }
        ensures count { SameCount self.old self.new }
    {
        let made = self.rounds(alloc, window, quota)?;
        if made > 0 {
            return Ok(made);
        }
        self.last_round(alloc, window, quota)
    }

    // Commits at the least line.
    fn commit(&mut self, alloc: Global) -> Result<List<Entry>, Memory>
        requires may { may_commit self.old.world.world (least_line self.old.world.world) ≡ true }
        ensures entries { IfOk result (λ es. es ≡ handed self.old.world.world (least_line self.old.world.world)) }
        ensures world { OnOk result (self.new.world ≡
            committed self.old.world (least_line self.old.world.world)) }
        ensures journal { OnOk result (self.new.journal.items ≡
            self.old.journal.items ++ TheCommit (least_line self.old.world.world) ∷ []) }
        ensures plan { self.new.world.plan ≡ self.old.world.plan }
        ensures grown { Extends self.old self.new }
        ensures count { SameCount self.old self.new }
    {
        let line = self.world.least();
        self.journal.push(Event::Commit { line })?;
        self.world.commit(alloc, line)
    }

    /// An epoch, and the Commit behind it.
    pub fn stage(
        &mut self,
        alloc: Global,
        window: Option<Line>,
        quota: u64,
    ) -> Result<Stage, Memory>
        requires valid { IsValid self.old.world.plan }
        requires stood { Stood self.old.world self.old.journal.items }
        requires few { self.old.world.made + quota ≤ 20000000 }
        requires all { IsCounted self.old }
        ensures done { IfOk result (λ s.
            HasStaged window s.made s.entries (run_of self.old false) (run_of self.new false)) }
        ensures stood { OnOk result (Stood self.new.world self.new.journal.items) }
        ensures most { IfOk result (λ s. s.made ≤ quota) }
        ensures moves { IfOk result (λ s. s.made ≡ 0 → 0 < quota → IsMoved window (run_of self.old false)) }
        ensures plan { self.new.world.plan ≡ self.old.world.plan }
        ensures grown { Extends self.old self.new }
        ensures count { SameCount self.old self.new }
    {
        let made = self.epoch(alloc, window, quota)?;
        let entries = self.commit(alloc)?;
        Ok(Stage { made, entries })
    }
}
