// What makes the stages of a run.
ghost use Rattle.std.specs.Prelude.{◌≡◌, ◌↔◌, false, true};
ghost use Rattle.pm_base.specs.declared.stamp.Line.TheVariants.{End};
ghost use Rattle.pm_kernel.specs.Engines.{world_of};
ghost use Rattle.pm_sim.specs.Worlds.{least_line};

use pm_base::{Entry, Journal, Line, List, Memory};
use std::alloc::Global;

/// What a stage did: how many deliveries it made, and what the Commit behind them handed out, in order of stamp.
#[derive(Debug, Drop)]
pub struct Stage {
    pub made: u64,
    pub entries: List<Entry>,
}

/// What makes the deliveries of a run and the Commits behind them. Contracts see its plan, the events so far, which end
/// in a Commit or are none, and whether memory was wanting in a stage: then it makes no other.
pub trait Engine {
    ghost use Rattle.std.specs.Prelude.{◌≡◌, ◌+◌, ◌<◌, ◌≤◌, false, IfOk, OnErr};
    ghost use Rattle.pm_kernel.specs.Engines.{HasStaged, IsMoved, RunView, world_of};
    ghost use Rattle.pm_plan.specs.Plans.{IsValid};
    ghost use Rattle.pm_sim.specs.Journals.{made};
    ghost use Rattle.pm_sim.specs.Worlds.{least_line};

    ghost view: { Self → RunView };

    /// The least moment of all messages on their way, or the end exactly where there is none.
    fn least(&self) -> Line
        requires { (view self.now).spoilt ≡ false }
        ensures { result ≡ least_line (world_of (view self.now)) };

    /// The line just above the moment of the agent that is to act as the `count`-th, counted from 1: none where fewer are
    /// to act. It is for a bound on how far agents run ahead of one another; no theorem needs it.
    fn ahead(&self, alloc: Global, count: usize) -> Result<Option<Line>, Memory>;

    /// An epoch of at most `quota` deliveries, each let through by the window, and a Commit at the least line behind it.
    /// Where none is made, the window is above the least line and the quota isn't 0, nothing was left to be delivered.
    /// After `Memory` the events are as they were, and no other stage can be made.
    fn stage(&mut self, alloc: Global, window: Option<Line>, quota: u64) -> Result<Stage, Memory>
        requires valid { IsValid (view self.old).plan }
        requires well { (view self.old).spoilt ≡ false }
        requires few { made (view self.old).journal + quota ≤ 20000000 }
        ensures done { IfOk result (λ s. HasStaged window s.made s.entries (view self.old) (view self.new)) }
        ensures most { IfOk result (λ s. s.made ≤ quota) }
        ensures moves { IfOk result (λ s. s.made ≡ 0 → 0 < quota → IsMoved window (view self.old)) }
        ensures kept { OnErr result ((view self.new).journal ≡ (view self.old).journal) }
        ensures plan { (view self.new).plan ≡ (view self.old).plan };

    /// The events so far.
    fn into_journal(self) -> Journal
        ensures { result ≡ (view self).journal };
}

/// Whether nothing is left to be delivered.
pub fn is_over<E: Engine>(engine: &E) -> bool
    requires { (E.view engine.now).spoilt ≡ false }
    ensures { (result ≡ true) ↔ (least_line (world_of (E.view engine.now)) ≡ End) }
{
    match engine.least() {
        Line::End => true,
        Line::At(_) => false,
    }
}
