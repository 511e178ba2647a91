// A lowest run as it goes: its world, and the events that led to it.
ghost use Rattle.std.specs.Prelude.{◌≡◌, ◌<◌, ◌++◌, ◌∷◌, [], false, true, IfOk, OnErr, OnOk};
ghost use Rattle.pm_base.specs.declared.run.Event.TheVariants.{Deliver as TheDeliver};
ghost use Rattle.pm_calm.specs.Lowest.{commits, is_begun};
ghost use Rattle.pm_core.specs.Views.{delivered, first_view, has_mail};
ghost use Rattle.pm_lowest.specs.Courses.{HasClosed};
ghost use Rattle.pm_plan.specs.Plans.{IsValid};
ghost use Rattle.pm_sim.specs.Worlds.{handed, least_line, may_commit};

use pm_base::{Entry, Event, List, Memory};
use pm_core::World;
use pm_plan::Plan;
use std::alloc::Global;

/// The world of a run, its events so far, and how many deliveries it may have in all.
#[derive(Drop)]
pub struct Course<'a> {
    pub world: World<'a>,
    pub journal: Vec<Event>,
    pub budget: u64,
}

impl<'a> Course<'a> {
    /// The first world, and no event.
    pub fn begin(alloc: Global, plan: &'a Plan, budget: u64) -> Result<Course<'a>, Memory>
        requires { IsValid plan.now }
        ensures world { IfOk result (λ c. c.world ≡ first_view plan.now) }
        ensures journal { IfOk result (λ c. c.journal.items ≡ []) }
        ensures budget { IfOk result (λ c. c.budget ≡ budget) }
    {
        Ok(Course {
            world: World::first(alloc, plan)?,
            journal: Vec::new(alloc),
            budget,
        })
    }

    /// Whether a Commit comes first: no event was made yet, or the least line is above the world's.
    pub fn is_due(&self) -> bool
        ensures { result ≡ commits (is_begun self.now.journal.items) self.now.world.world }
    {
        self.journal.is_empty() || !(self.world.least() <= self.world.line())
    }

    /// Commits at the least line, and hands out the entries of this, in order of their stamps. After `Memory` the events
    /// are as they were.
    pub fn commit(&mut self, alloc: Global) -> Result<List<Entry>, Memory>
        requires may { may_commit self.old.world.world (least_line self.old.world.world) ≡ true }
        ensures entries { IfOk result (λ es. es ≡ handed self.old.world.world (least_line self.old.world.world)) }
        ensures closed { OnOk result (HasClosed self.old self.new) }
        ensures kept { OnErr result (self.new.journal.items ≡ self.old.journal.items) }
        ensures budget { self.new.budget ≡ self.old.budget }
    {
        let line = self.world.least();
        let entries = self.world.commit(alloc, line)?;
        self.journal.push(Event::Commit { line })?;
        Ok(entries)
    }

    /// Delivers the first message of the link to that process from that one. After `Memory` the events are as they were.
    pub fn deliver(&mut self, alloc: Global, to: u32, from: u32) -> Result<(), Memory>
        requires few { self.old.world.made < 20000000 }
        requires mail { has_mail self.old.world to from ≡ true }
        ensures world { OnOk result (self.new.world ≡ delivered self.old.world to from) }
        ensures journal { OnOk result (self.new.journal.items ≡ self.old.journal.items ++ TheDeliver to from ∷ []) }
        ensures kept { OnErr result (self.new.journal.items ≡ self.old.journal.items) }
        ensures budget { self.new.budget ≡ self.old.budget }
    {
        self.world.deliver(alloc, to, from)?;
        self.journal.push(Event::Deliver { to, from })?;
        Ok(())
    }
}
