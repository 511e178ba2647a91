//! What the cells' stories tell of the world.
ghost use Rattle.std.specs.Prelude.{◌≡◌, ◌<◌, ℕ, [], List as Seq};
ghost use Rattle.pm_base.specs.declared.stamp.Line.{Line as TheLine};
ghost use Rattle.pm_plan.specs.Plans.{IsValid};
ghost use Rattle.pm_plan.specs.declared.plan.Plan.{Plan as ThePlan};
ghost use Rattle.pm_sim.specs.Worlds.{World, least_line};
ghost use Rattle.pm_cell.specs.Stands.{CellView, HistoriesMerge, CommitsAreTheWorlds, IdleCellsAreDone, IsLeastOf, StandAt};
ghost use Rattle.pm_cell.specs.Views.{Settled, nobody};

/// Whatever turns were made, by whatever threads: the stories that cells heard since they stood for a world merge into one
/// legal run from it, of as many deliveries as there are receipts, and the settled cells stand for the world that it
/// leads to. No clock is above the number of all deliveries, and no window was overstepped.
pub fn the_histories_merge_to_one_run()
    ensures law { (p : ThePlan) (n : ℕ) (w : World) (vs us ts : Seq CellView) → IsValid p → HistoriesMerge p n w vs us ts }
{}

/// The least moment that waits at settled cells is the least line of the world that they stand for.
pub fn least_is_the_worlds()
    ensures law { (p : ThePlan) (n : ℕ) (w : World) (vs : Seq CellView) (l : TheLine) → IsValid p →
        StandAt p n w vs → Settled nobody vs → IsLeastOf l vs → l ≡ least_line w }
{}

/// A Commit of settled cells is one of the world that they stand for, and hands out what that does.
pub fn commits_are_the_worlds()
    ensures law { (p : ThePlan) (n : ℕ) (w : World) (l : TheLine) (vs us : Seq CellView) → IsValid p →
        CommitsAreTheWorlds p n w l vs us }
{}

/// Where settled cells stand for a world and each is idle, with windows above the least line, no message is left; and a
/// cell that is idle after an epoch that told nothing was idle before.
pub fn idle_cells_are_done()
    ensures law { (p : ThePlan) (n : ℕ) (w : World) (vs us : Seq CellView) → IsValid p → IdleCellsAreDone p n w vs us }
{}
