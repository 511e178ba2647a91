//! Worked rows of what is kept, and of playing.

ghost use Rattle.std.specs.Prelude.{◌≡◌, ◌++◌, [], None, Some};
ghost use Rattle.pm_sim.specs.Kept.{kept};
ghost use Rattle.pm_sim.specs.Played.{broken_run, play};
ghost use Rattle.pm_sim.specs.Samples.{deliveries, first_commit_run, late_write, late_write_deliveries};
ghost use Rattle.pm_sim.specs.Samples.{late_write_entries, late_write_run, second_commit};
ghost use Rattle.pm_sim.specs.Worlds.{after_events, first_world};

/// Two steps, a put and a read are kept; behind the first Commit a step and the read; behind the one at the end none.
pub fn a_late_write_is_kept_until_its_commit()
    ensures all { kept (after_events late_write (first_world late_write) (deliveries late_write_deliveries)) ≡ 4 }
    ensures rest { kept (after_events late_write (first_world late_write) first_commit_run) ≡ 2 }
    ensures none { kept (after_events late_write (first_world late_write) (first_commit_run ++ second_commit)) ≡ 0 }
{}

/// The late write is played to its end; with a third event over a link that isn't there two events are done, and
/// nothing is handed out.
pub fn playing_a_late_write()
    ensures whole { (play late_write (first_world late_write) late_write_run).stopped ≡ None }
    ensures entries { (play late_write (first_world late_write) late_write_run).entries ≡ late_write_entries }
    ensures stops { (play late_write (first_world late_write) broken_run).stopped ≡ Some 2 }
    ensures nothing { (play late_write (first_world late_write) broken_run).entries ≡ [] }
{}
