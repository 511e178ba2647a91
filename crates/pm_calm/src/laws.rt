//! What the lowest run is, one event after another, and what holds along it.

ghost use Rattle.std.specs.Prelude.{ℕ, List as Seq};
ghost use Rattle.pm_base.specs.declared.run.Event.{Event};
ghost use Rattle.pm_plan.specs.Plans.{IsValid};
ghost use Rattle.pm_plan.specs.declared.plan.Plan.{Plan};
ghost use Rattle.pm_sim.specs.Worlds.{World};
ghost use Rattle.pm_calm.specs.Calm.{LowestCommits, LowestEnds, LowestIsCalm, LowestIsLegal};
ghost use Rattle.pm_calm.specs.Lowest.{LeastLinkOf, LowestSteps};

/// The link whose first message comes before those of all others is the least link, and there is none exactly where no
/// message is on its way.
pub fn the_least_link()
    ensures least { (p : Plan) (n : ℕ) (w : World) → IsValid p → LeastLinkOf n p w }
{}

/// The lowest run begins with no event, a Commit where one is due and a delivery at the least link bring it on, and it
/// is whole where no message is left or the budget is spent.
pub fn the_lowest_run_goes_on()
    ensures steps { (budget : ℕ) (p : Plan) → IsValid p → LowestSteps budget p }
{}

/// The lowest run with any budget, and each list of events that it begins with, is a legal run.
pub fn the_lowest_run_is_legal()
    ensures legal { (budget : ℕ) (p : Plan) (j : Seq Event) → IsValid p → LowestIsLegal budget p j }
{}

/// It never rolls back: no anti-message is ever on its way, every message but a Wake has the moment of the line, each
/// delivery takes a message of the least moment, which is the line's, each hit that an agent takes is for a sense that
/// isn't complete, and each Commit stands at the least line.
pub fn the_lowest_run_never_rolls_back()
    ensures calm { (budget : ℕ) (p : Plan) (j : Seq Event) → IsValid p → LowestIsCalm budget p j }
{}

/// It ends with no message left and all committed, or with its budget spent and a message left.
pub fn the_lowest_run_ends()
    ensures ends { (budget : ℕ) (p : Plan) → IsValid p → LowestEnds budget p }
{}

/// What it has committed is the sequential run below its line, and all of it where the line is the end.
pub fn the_lowest_run_commits_the_sequential_run()
    ensures sequential { (budget : ℕ) (p : Plan) (j : Seq Event) → IsValid p → LowestCommits budget p j }
{}
