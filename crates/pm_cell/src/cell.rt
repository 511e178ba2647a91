//! A process with its ends, its clock and the story of what it heard.
ghost use Rattle.std.specs.Prelude.{◌≡◌, ◌≢◌, [], IfOk, OnOk, length, ℕ};
ghost use Rattle.pm_base.specs.Stamps.{least_line_of};
ghost use Rattle.pm_ends.specs.Ends.{AllGrew, froms, stamps_in};
ghost use Rattle.pm_ends.specs.Numbers.{AreRising, nth};
ghost use Rattle.pm_ends.specs.Wires.{IsDrawn, IsWiredAt};
ghost use Rattle.pm_cell.specs.Helds.{next_of, view_of};
ghost use Rattle.pm_cell.specs.Views.{story_of};

use pm_base::{Line, Memory, Stamp};
use pm_core::Process;
use pm_ends::{InEnds, OutEnds, draw, senders_rise};
use pm_history::History;
use pm_plan::Plan;
use std::alloc::Global;
use std::marker::Model;
use std::mem::replace;

/// A process of a plan, held by whichever thread gives it its turns: with the ends of its links, its clock, the story of
/// what it heard since the last Commit, and the window that keeps awaited Wakes back. Contracts see what is held, and
/// `view_of` it.
#[derive(Drop)]
pub struct Cell<'a> {
    pub(crate) plan: &'a Plan,
    pub(crate) number: u32,
    // In boxes, since a cell is moved into and out of its turn lock at each turn.
    pub(crate) process: Box<Process<'a>>,
    pub(crate) outs: Box<OutEnds>,
    pub(crate) inns: InEnds,
    pub(crate) story: History,
    pub(crate) clock: u64,
    // Whether memory was wanting in a turn: then every later turn answers `Memory`.
    pub(crate) spoilt: bool,
    pub(crate) window: Option<Line>,
    // How many messages that withdraw a write it heard: for the pace of a run, not seen.
    pub(crate) withdrawn: u64,
}

impl<'a> Model for Cell<'a> {
    ghost use Rattle.pm_cell.specs.Helds.{Held, IsCell};
    ghost use Rattle.std.specs.Coded.{codes};
    ghost use Rattle.pm_base.specs.contracts.program.Expr as expr;
    ghost use Rattle.pm_base.specs.contracts.program.Stmt as stmt;

    ghost Value = { Held };

    ghost coded = { Prim.hlevel (codes, expr.the_row.coded, stmt.the_row.coded) };

    ghost view = { λ c. record {
      plan = c.plan.now;
      number = c.number;
      process = c.process.value;
      inns = c.inns;
      outs = c.outs.value;
      story = c.story.heard;
      clock = c.clock;
      spoilt = c.spoilt;
      window = c.window;
    } };

    ghost invariant = { λ c. IsCell c.plan.now c.number c.process.value c.story c.clock c.outs.value c.spoilt };
}

// The moment for which a process waits.
fn next_of(process: &Process<'_>) -> Option<Stamp>
    ensures { result ≡ next_of process.now }
{
    match process {
        Process::Clp(_) => None,
        Process::Alp(alp) => alp.next(),
    }
}

impl<'a> Cell<'a> {
    /// The number of its process. It takes no memory.
    pub fn number(&self) -> u32
        ensures { result ≡ self.now.number }
    {
        self.number
    }

    /// How many receipts its story has. It takes no memory.
    pub fn told(&self) -> usize
        ensures { result ≡ length self.now.story }
    {
        self.story.heard().len()
    }

    /// Whether memory was wanting in a turn. It takes no memory.
    pub fn spoilt(&self) -> bool
        ensures { result ≡ self.now.spoilt }
    {
        self.spoilt
    }

    /// The moment of the Wake that its agent awaits: none while the agent is in a step, once it has retired, and of a
    /// communication process. It takes no memory.
    pub fn next(&self) -> Option<Stamp>
        ensures { result ≡ next_of self.now.process }
    {
        next_of(&self.process)
    }

    /// From now on it keeps an awaited Wake back that isn't below the line, where there is one. It takes no memory.
    pub fn set_window(&mut self, window: Option<Line>)
        ensures { self.new ≡ record self.old { window = window } }
    {
        self.window = window;
    }

    /// Its story, once more.
    pub fn history(&self, alloc: Global) -> Result<History, Memory>
        ensures { IfOk result (λ h. h ≡ story_of (view_of self.now)) }
    {
        self.story.copy(alloc)
    }

    /// How many messages that withdraw a write it heard so far, at most `u64::MAX`: it tells how much of what agents did
    /// ahead was taken back. No clause speaks of it. It takes no memory.
    pub fn withdrawn(&self) -> u64 {
        self.withdrawn
    }

    /// The least moment that waits at its ends, or the end where nothing does. It takes no memory.
    pub fn least(&self) -> Line
        ensures least { result ≡ least_line_of (stamps_in self.now.inns) }
        ensures rise { AreRising (froms self.now.inns) }
    {
        senders_rise(&self.inns);
        self.inns.least()
    }

    // Its in-ends, which it has no longer. It takes no memory.
    pub(crate) fn take_inns(&mut self, alloc: Global) -> InEnds
        ensures inns { result ≡ self.old.inns }
        ensures none { self.new ≡ record self.old { inns = [] } }
    {
        replace(&mut self.inns, InEnds::new(alloc))
    }

    // It has these in-ends. It takes no memory.
    pub(crate) fn put_inns(&mut self, inns: InEnds)
        ensures { self.new ≡ record self.old { inns = inns } }
    {
        self.inns = inns;
    }

    // Draws the link of the in-end at that place, whose other end is here.
    pub(crate) fn draw_into(&mut self, inns: &mut InEnds, at: usize) -> Result<(), Memory>
        requires { IsWiredAt self.old.outs inns.old at }
        ensures cell { self.new ≡ self.old }
        ensures inns { AllGrew inns.old inns.new }
        ensures others { (j : ℕ) → j ≢ at → nth inns.new j ≡ nth inns.old j }
        ensures drawn { OnOk result (IsDrawn self.old.outs inns.new at) }
    {
        draw(&mut self.outs, inns, at)
    }
}
