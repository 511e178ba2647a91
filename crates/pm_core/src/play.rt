//! Events of anyone's choice.
ghost use Rattle.std.specs.Prelude.{◌≡◌, ◌≤◌, ◌<◌, ◌+◌, ◌++◌, [], false, true, length, IfOk, OnOk, OnErr};
ghost use Rattle.pm_core.specs.Views.{PlayedWell, committed, happened};
ghost use Rattle.pm_sim.specs.Worlds.{handed, hands, is_legal, may_commit};

use crate::world::World;
use pm_base::{Entry, Event, Line, List, Memory};
use std::alloc::Global;

/// What a list of events came to: what its Commits handed out, and how many events were done where one wasn't legal.
#[derive(Debug, Drop)]
pub struct Played {
    pub entries: List<Entry>,
    pub stopped: Option<u64>,
}

impl<'a> World<'a> {
    // Commits, and adds what this hands out.
    fn hand(&mut self, alloc: Global, line: Line, entries: &mut Vec<Entry>) -> Result<(), Memory>
        requires { may_commit self.old.world line ≡ true }
        ensures world { OnOk result (self.new ≡ committed self.old line) }
        ensures entries { OnOk result (entries.new.items ≡ entries.old.items ++ handed self.old.world line) }
        ensures plan { self.new.plan ≡ self.old.plan }
    {
        let handed = self.commit(alloc, line)?;
        entries.append(&mut handed.into_vec())?;
        Ok(())
    }

    // Does an event where it is legal, and adds what it hands out; the answer tells whether it was.
    fn happens(
        &mut self,
        alloc: Global,
        event: &Event,
        entries: &mut Vec<Entry>,
    ) -> Result<bool, Memory>
        requires { self.old.made < 20000000 }
        ensures told { IfOk result (λ b. b ≡ is_legal self.old.plan self.old.world event.now) }
        ensures done { is_legal self.old.plan self.old.world event.now ≡ true →
            OnOk result (self.new ≡ happened self.old event.now) }
        ensures entries { is_legal self.old.plan self.old.world event.now ≡ true →
            OnOk result (entries.new.items ≡ entries.old.items ++ hands self.old.world event.now) }
        ensures nothing { is_legal self.old.plan self.old.world event.now ≡ false → OnOk result (self.new ≡ self.old) }
        ensures none { is_legal self.old.plan self.old.world event.now ≡ false →
            OnOk result (entries.new.items ≡ entries.old.items) }
        ensures plan { self.new.plan ≡ self.old.plan }
    {
        match event {
            Event::Deliver { to, from } => self.deliver(alloc, *to, *from),
            Event::Commit { line } => {
                if !self.may_commit(*line) {
                    return Ok(false);
                }
                self.hand(alloc, *line, entries)?;
                Ok(true)
            }
        }
    }

    // Does the events in order, up to the first that isn't legal.
    fn play_on(
        &mut self,
        alloc: Global,
        events: &[Event],
        entries: &mut Vec<Entry>,
    ) -> Result<Option<u64>, Memory>
        requires { self.old.made + length events.now ≤ 20000000 }
        ensures played { entries.old.items ≡ [] →
            IfOk result (λ r. PlayedWell self.old self.new events.now entries.new.items r) }
        ensures plan { self.new.plan ≡ self.old.plan }
    {
        for (i, event) in events.iter().enumerate() {
            if !self.happens(alloc, event, entries)? {
                return Ok(Some(i as u64));
            }
        }
        Ok(None)
    }

    /// Does the events in order, up to the first that isn't legal: a delivery over a link without a message, or a Commit
    /// below the world's line or above the least line. After `Memory` the world is spoilt.
    pub fn play(&mut self, alloc: Global, events: &[Event]) -> Result<Played, Memory>
        requires { self.old.made + length events.now ≤ 20000000 }
        ensures played { IfOk result (λ r. PlayedWell self.old self.new events.now r.entries r.stopped) }
        ensures spoils { OnErr result (self.new.spoilt ≡ true) }
        ensures plan { self.new.plan ≡ self.old.plan }
    {
        let mut entries = Vec::new(alloc);
        match self.play_on(alloc, events, &mut entries) {
            Ok(stopped) => Ok(Played {
                entries: List::from_vec(entries),
                stopped,
            }),
            Err(memory) => {
                self.spoil();
                Err(memory)
            }
        }
    }
}
