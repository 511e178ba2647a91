//! The world of a run on one thread.
ghost use Rattle.std.specs.Prelude.{◌≡◌, ◌≤◌, ◌<◌, ◌++◌, false, true, Err, IfOk, OnOk, OnErr};
ghost use Rattle.std.specs.List.Sorted.{IsPermutation};
ghost use Rattle.pm_model.specs.Entries.{IsInOrder, run_below};
ghost use Rattle.pm_plan.specs.Plans.{IsValid};
ghost use Rattle.pm_sim.specs.Worlds.{handed, least_line, may_commit};
ghost use Rattle.pm_trace.specs.Merges.{StandsOnce};

mod ahead;
mod kept;
mod leasts;
mod picks;

use crate::arrivals::Processes;
use crate::commits::{commit_alps, commit_clps, count_ready};
use crate::firsts::{first_alps, first_clps};
use crate::posts::open_tree;
use pm_base::{Entry, Line, List, Memory, Stamp};
use pm_mail::Mail;
use pm_plan::Plan;
use std::alloc::Global;
use std::marker::Model;

/// The world of an optimistic run on one thread: its processes, the messages on their way, and the line below which all is
/// committed. Contracts see the plan, the world that the run has come to, how many deliveries were made, and whether
/// memory was wanting in one of them: such a world is spoilt.
#[derive(Drop)]
pub struct World<'a> {
    processes: Processes<'a>,
    mail: Mail,
    // To whom the last delivery sent.
    receivers: Vec<u32>,
    line: Line,
    made: u64,
    spoilt: bool,
}

impl<'a> Model for World<'a> {
    ghost use Rattle.pm_core.specs.Views.{IsWorld, WorldView, world_of};
    ghost use Rattle.std.specs.Coded.{codes};
    ghost use Rattle.pm_base.specs.contracts.program.Expr as expr;
    ghost use Rattle.pm_base.specs.contracts.program.Stmt as stmt;

    ghost Value = { WorldView };

    ghost coded = { Prim.hlevel (codes, expr.the_row.coded, stmt.the_row.coded) };

    ghost view = { λ w. record {
      plan = w.processes.plan.now;
      world = world_of w.processes w.mail w.line;
      made = w.made;
      spoilt = w.spoilt;
    } };

    ghost invariant = { λ w. IsWorld w.processes (world_of w.processes w.mail w.line) w.made w.spoilt };
}

// Entries in order of their stamps. It takes no memory.
fn in_stamp_order(entries: Vec<Entry>) -> List<Entry>
    requires { StandsOnce entries.items }
    ensures all { IsPermutation entries.items result }
    ensures order { IsInOrder result }
{
    let mut entries = entries;
    entries.sort_unstable_by_key(|e| e.stamp);
    List::from_vec(entries)
}

impl<'a> World<'a> {
    ghost use Rattle.pm_core.specs.Views.{committed, delivered, first_view, has_link, has_mail};

    /// The world before the first event: each process's first state, and the agents' first Wakes on their way.
    pub fn first(alloc: Global, plan: &'a Plan) -> Result<World<'a>, Memory>
        requires { IsValid plan.now }
        ensures { IfOk result (λ w. w ≡ first_view plan.now) }
    {
        let mut mail = Mail::new(alloc);
        let clps = first_clps(alloc, plan)?;
        open_tree(alloc, &mut mail, plan)?;
        let alps = first_alps(alloc, plan, &mut mail)?;
        Ok(World {
            processes: Processes { plan, clps, alps },
            mail,
            receivers: Vec::new(alloc),
            line: Line::At(Stamp { time: 0, agent: 0 }),
            made: 0,
            spoilt: false,
        })
    }

    /// Whether there is a link to that process from that one. It takes no memory.
    pub fn has_link(&self, to: u32, from: u32) -> bool
        ensures { result ≡ has_link self.now to from }
    {
        self.mail.has_link(to, from)
    }

    /// Delivers the first message of the link to that process from that one. The answer tells whether there was one;
    /// where there is none, or no such link, nothing changes. After `Memory` the world is spoilt: then every later
    /// delivery and Commit answers `Memory`.
    pub fn deliver(&mut self, alloc: Global, to: u32, from: u32) -> Result<bool, Memory>
        requires { self.old.made < 20000000 }
        ensures told { IfOk result (λ b. b ≡ has_mail self.old to from) }
        ensures done { has_mail self.old to from ≡ true → OnOk result (self.new ≡ delivered self.old to from) }
        ensures nothing { has_mail self.old to from ≡ false → OnOk result (self.new ≡ self.old) }
        ensures spoils { OnErr result (self.new.spoilt ≡ true) }
        ensures plan { self.new.plan ≡ self.old.plan }
        ensures spoilt { self.old.spoilt ≡ true → result ≡ Err record {} }
    {
        if self.spoilt {
            return Err(Memory);
        }
        let Some(message) = self.mail.take(to, from) else {
            return Ok(false);
        };
        self.spoilt = true;
        self.receivers.clear();
        self.processes.arrive(
            alloc,
            &mut self.mail,
            &mut self.receivers,
            to,
            from,
            message,
        )?;
        self.spoilt = false;
        self.made += 1;
        Ok(true)
    }

    /// To which processes the last delivery sent: whoever keeps it in mind need not look at the others. It takes no memory.
    pub fn receivers(&self) -> &[u32] {
        self.receivers.as_slice()
    }

    /// How many deliveries were made: the sum of those at all processes. It takes no memory.
    pub fn made(&self) -> u64
        ensures made { result ≡ self.now.made }
        ensures few { self.now.spoilt ≡ false → result ≤ 20000000 }
    {
        self.made
    }

    /// The line below which all is committed. It takes no memory.
    pub fn line(&self) -> Line
        ensures { result ≡ self.now.world.line }
    {
        self.line
    }

    /// The least line: the least moment of all messages on their way, or the end exactly where there is none. It takes
    /// no memory.
    pub fn least(&self) -> Line
        ensures { result ≡ least_line self.now.world }
    {
        self.mail.least()
    }

    /// Whether a Commit may stand at that line: it is at least the world's and at most the least line. It takes no memory.
    pub fn may_commit(&self, line: Line) -> bool
        ensures { result ≡ may_commit self.now.world line }
    {
        self.line <= line && line <= self.least()
    }

    /// Commits all processes at that line. The answer is the entries that this hands out, in order of their stamps:
    /// exactly the entries of the sequential run below that line and not below the one before. After `Memory` the world
    /// is unchanged. A spoilt world answers `Memory`.
    pub fn commit(&mut self, alloc: Global, line: Line) -> Result<List<Entry>, Memory>
        requires { may_commit self.old.world line ≡ true }
        ensures world { OnOk result (self.new ≡ committed self.old line) }
        ensures entries { IfOk result (λ es. es ≡ handed self.old.world line) }
        ensures sequential { IfOk result (λ es.
            run_below self.old.plan line ≡ run_below self.old.plan self.old.world.line ++ es) }
        ensures unchanged { OnErr result (self.new ≡ self.old) }
        ensures spoilt { self.old.spoilt ≡ true → result ≡ Err record {} }
    {
        if self.spoilt {
            return Err(Memory);
        }
        let room = count_ready(self.processes.alps.as_slice(), line);
        let mut entries = Vec::with_capacity(alloc, room)?;
        commit_clps(&mut self.processes.clps, line);
        commit_alps(&mut self.processes.alps, line, &mut entries);
        self.line = line;
        Ok(in_stamp_order(entries))
    }

    /// The world is spoilt: every later delivery and Commit answers `Memory`.
    pub(crate) fn spoil(&mut self)
        ensures { self.new ≡ record self.old { spoilt = true } }
    {
        self.spoilt = true;
    }
}
