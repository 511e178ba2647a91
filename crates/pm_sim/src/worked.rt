//! Worked runs: each is legal, and what it commits is the sequential run.

ghost use Rattle.std.specs.Prelude.{◌≡◌, ◌++◌, ◌∷◌, [], true};
ghost use Rattle.pm_model.specs.Runs.{sequential_run};
ghost use Rattle.pm_sim.specs.Worlds.{is_legal_run, committed, first_world};
ghost use Rattle.pm_sim.specs.Samples.{entry, write};
ghost use Rattle.pm_sim.specs.Samples.{late_write, late_write_run, late_write_entries, first_commit_run, second_commit};
ghost use Rattle.pm_sim.specs.Samples.{withdrawn_write, withdrawn_write_run, withdrawn_write_entries};
ghost use Rattle.pm_sim.specs.Samples.{overtaken_cut, overtaken_cut_run};
ghost use Rattle.pm_sim.specs.Samples.{moving_query, moving_query_run, moving_query_entries};
ghost use Rattle.pm_sim.specs.Samples.{pruned_window, pruned_window_run, pruned_window_entries};
ghost use Rattle.pm_sim.specs.Samples.{early_query, early_query_run, early_query_entries};
ghost use Rattle.pm_sim.specs.Samples.{adders, adders_run, adders_entries};

/// A late write rolls back a read that was answered without it.
pub fn a_late_write()
    ensures legal { is_legal_run late_write (first_world late_write) late_write_run ≡ true }
    ensures committed { committed late_write late_write_run ≡ late_write_entries }
    ensures sequential { sequential_run late_write ≡ late_write_entries }
{}

/// A Commit at a stamp hands out what is below it alone, and the next one the rest.
pub fn two_commits()
    ensures legal { is_legal_run late_write (first_world late_write) (first_commit_run ++ second_commit) ≡ true }
    ensures first { committed late_write first_commit_run ≡ entry 0 [] (write 0 5 ∷ []) ∷ [] }
    ensures both { committed late_write (first_commit_run ++ second_commit) ≡ late_write_entries }
{}

/// A rollback withdraws the write of the step that is rolled back, which rolls back its reader.
pub fn a_withdrawn_write()
    ensures legal { is_legal_run withdrawn_write (first_world withdrawn_write) withdrawn_write_run ≡ true }
    ensures committed { committed withdrawn_write withdrawn_write_run ≡ withdrawn_write_entries }
    ensures sequential { sequential_run withdrawn_write ≡ withdrawn_write_entries }
{}

/// The same while variables move, where the withdrawal comes to the variable before the write that it withdraws.
pub fn an_overtaken_cut()
    ensures legal { is_legal_run overtaken_cut (first_world overtaken_cut) overtaken_cut_run ≡ true }
    ensures committed { committed overtaken_cut overtaken_cut_run ≡ withdrawn_write_entries }
    ensures sequential { sequential_run overtaken_cut ≡ withdrawn_write_entries }
{}

/// A range query passes a variable that moves the other way, and is answered where the variable arrives.
pub fn a_moving_query()
    ensures legal { is_legal_run moving_query (first_world moving_query) moving_query_run ≡ true }
    ensures committed { committed moving_query moving_query_run ≡ moving_query_entries }
    ensures sequential { sequential_run moving_query ≡ moving_query_entries }
{}

/// A range query that wasn't sent where nothing was in its window catches up when something is written there.
pub fn a_pruned_window()
    ensures legal { is_legal_run pruned_window (first_world pruned_window) pruned_window_run ≡ true }
    ensures committed { committed pruned_window pruned_window_run ≡ pruned_window_entries }
    ensures sequential { sequential_run pruned_window ≡ pruned_window_entries }
{}

/// A range query isn't sent where what is in its window is written later than it asks.
pub fn an_early_query()
    ensures legal { is_legal_run early_query (first_world early_query) early_query_run ≡ true }
    ensures committed { committed early_query early_query_run ≡ early_query_entries }
    ensures sequential { sequential_run early_query ≡ early_query_entries }
{}

/// Writes that add come in any order, and each rolls back the read of the sum.
pub fn writes_that_add()
    ensures legal { is_legal_run adders (first_world adders) adders_run ≡ true }
    ensures committed { committed adders adders_run ≡ adders_entries }
    ensures sequential { sequential_run adders ≡ adders_entries }
{}
