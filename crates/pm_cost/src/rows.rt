//! Worked sums.

ghost use Rattle.std.specs.Prelude.{◌≡◌};
ghost use Rattle.pm_calm.specs.Samples.{counting};
ghost use Rattle.pm_cost.specs.Costs.{bound_of};
ghost use Rattle.pm_sim.specs.Samples.{pruned_window};

/// Three steps of a single read and a write over one communication process: nine each.
pub fn counting_costs()
    ensures sum { bound_of counting ≡ 27 }
{}

/// A write and a range query over two communication processes and one variable: seven and ten.
pub fn pruned_window_costs()
    ensures sum { bound_of pruned_window ≡ 17 }
{}
