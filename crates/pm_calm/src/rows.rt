//! Worked lowest runs.

ghost use Rattle.std.specs.Prelude.{◌≡◌};
ghost use Rattle.pm_sim.specs.Samples.{late_write, pruned_window};
ghost use Rattle.pm_calm.specs.Lowest.{lowest};
ghost use Rattle.pm_calm.specs.Samples.{counting, counting_lowest, late_write_lowest};
ghost use Rattle.pm_calm.specs.Samples.{pruned_window_lowest, pruned_window_nine, pruned_window_three, pruned_window_two};

/// One agent that counts up: twelve deliveries.
pub fn counting_up()
    ensures run { lowest 27 counting ≡ counting_lowest }
{}

/// A write and a read of one moment: the write's agent comes first, and nothing is rolled back.
pub fn a_write_in_time()
    ensures run { lowest 6 late_write ≡ late_write_lowest }
{}

/// A range query after a write elsewhere: ten deliveries; and where two, three and nine end.
pub fn a_query_after_a_write()
    ensures run { lowest 17 pruned_window ≡ pruned_window_lowest }
    ensures two { lowest 2 pruned_window ≡ pruned_window_two }
    ensures three { lowest 3 pruned_window ≡ pruned_window_three }
    ensures nine { lowest 9 pruned_window ≡ pruned_window_nine }
{}
