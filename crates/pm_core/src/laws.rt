//! Laws of the definitions.

ghost use Rattle.std.specs.Prelude.{◌≡◌, ◌∷◌, [], Some};
ghost use Rattle.pm_core.specs.Links.{LinksAre, links};
ghost use Rattle.pm_plan.specs.Plans.{IsValid};
ghost use Rattle.pm_plan.specs.declared.plan.Plan.{Plan};
ghost use Rattle.pm_core.specs.Rows.{PlaysTo};
ghost use Rattle.pm_sim.specs.Played.{broken_run, play};
ghost use Rattle.pm_sim.specs.Samples.{late_write, late_write_entries, late_write_run};
ghost use Rattle.pm_sim.specs.Samples.{withdrawn_write, withdrawn_write_entries, withdrawn_write_run};
ghost use Rattle.pm_sim.specs.Samples.{overtaken_cut, overtaken_cut_run};
ghost use Rattle.pm_sim.specs.Samples.{moving_query, moving_query_entries, moving_query_run};
ghost use Rattle.pm_sim.specs.Samples.{pruned_window, pruned_window_entries, pruned_window_run};
ghost use Rattle.pm_sim.specs.Samples.{adders, adders_entries, adders_run};
ghost use Rattle.pm_sim.specs.Worlds.{first_world};

/// The links of a plan are ascending, and are exactly those of its first world.
pub fn links_are_the_worlds()
    ensures law { (p : Plan) → IsValid p → LinksAre p }
{}

/// Worked rows: one communication process with two agents, and two of them with both agents at the lower one.
pub fn rows_of_links()
    ensures one { links late_write ≡ (0, 1) ∷ (0, 2) ∷ (1, 0) ∷ (1, 1) ∷ (2, 0) ∷ (2, 2) ∷ [] }
    ensures two { links moving_query ≡
        (0, 1) ∷ (1, 0) ∷ (1, 2) ∷ (1, 3) ∷ (2, 1) ∷ (2, 2) ∷ (3, 1) ∷ (3, 3) ∷ [] }
{}

/// Worked rows: what playing from a plan's first world hands out where a late write rolls back its reader; where the write
/// of a step that is rolled back is withdrawn, also before it has come; where a query passes a variable that moves; where
/// something is written into a window that wasn't asked for; and where writes add.
pub fn rows_of_play()
    ensures late_write { PlaysTo late_write late_write_run late_write_entries }
    ensures withdrawn_write { PlaysTo withdrawn_write withdrawn_write_run withdrawn_write_entries }
    ensures overtaken_cut { PlaysTo overtaken_cut overtaken_cut_run withdrawn_write_entries }
    ensures moving_query { PlaysTo moving_query moving_query_run moving_query_entries }
    ensures pruned_window { PlaysTo pruned_window pruned_window_run pruned_window_entries }
    ensures writes_that_add { PlaysTo adders adders_run adders_entries }
    ensures stops { (play late_write (first_world late_write) broken_run).stopped ≡ Some 2 }
    ensures nothing { (play late_write (first_world late_write) broken_run).entries ≡ [] }
{}
