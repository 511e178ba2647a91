//! The worlds that legal runs lead to, as a word that each event keeps, and what it tells of them.

ghost use Rattle.std.specs.Prelude.{◌≡◌, ◌<◌, ◌≤◌, ◌+◌, ℕ, Option, length, []};
ghost use Rattle.pm_base.specs.declared.stamp.Line.{Line as TheLine};
ghost use Rattle.pm_plan.specs.Plans.{IsValid};
ghost use Rattle.pm_plan.specs.declared.plan.Plan.{Plan};
ghost use Rattle.pm_sim.specs.Journals.{made_at};
ghost use Rattle.pm_sim.specs.Reached.{AllTaken, Reached, ReachedOn, WorldTells};
ghost use Rattle.pm_sim.specs.Ready.{IsIdle, WindowOk};
ghost use Rattle.pm_sim.specs.Taken.{Limits, sum_to};
ghost use Rattle.pm_sim.specs.Worlds.{Process, World, clps_of, mail, process};

/// The first world is reached, and so is the world after each legal event.
pub fn events_reach_on()
    ensures reached { (p : Plan) → ReachedOn p }
{}

/// What a reached world tells: its least line, its links, what is kept, who waits, and what a Commit hands out.
pub fn reached_worlds()
    ensures tells { (p : Plan) (n : ℕ) (w : World) → IsValid p → Reached p n w → WorldTells p w }
    ensures taken { (p : Plan) (n : ℕ) (w : World) → IsValid p → (r : Reached p n w) → n < 20000000 →
        AllTaken p r.events w }
    ensures low { (p : Plan) (n : ℕ) (w : World) → IsValid p → Reached p n w → n ≤ 20000000 → Limits p w }
    ensures sum { (p : Plan) (n : ℕ) (w : World) → IsValid p → (r : Reached p n w) →
        sum_to (λ i. made_at p (process p i) r.events) (clps_of p + length p.agents) ≡ n }
    ensures done { (p : Plan) (n : ℕ) (w : World) → IsValid p → Reached p n w →
        (windows : Process → Option TheLine) → ((k : Process) → WindowOk w (windows k)) →
        IsIdle w windows → mail w.links ≡ [] }
{}
