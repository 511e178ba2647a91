ghost use Rattle.pm_base.specs.declared.stamp.Interval.{Interval};
ghost use Rattle.pm_base.specs.declared.stamp.Line.{Line};
ghost use Rattle.pm_base.specs.declared.stamp.Stamp.{Stamp};
ghost use Rattle.pm_base.specs.declared.value.Window.{Window};
ghost use Rattle.pm_ranges.specs.Fits.{BoundsAreJoins, CoveringIsTold, FittingIsKept, GrowingJoins, TrimmingKeeps};
ghost use Rattle.pm_ranges.specs.Known.{Known};
ghost use Rattle.pm_ranges.specs.Sample.{SampleBounds};

/// A law of the definitions: a bound is the join of the windows that were grown over its stamp.
pub fn bounds_are_joins()
    ensures { BoundsAreJoins }
{}

/// A law of the definitions: what growing does to each bound that may be asked for.
pub fn growing_joins()
    ensures { (when : Interval) → (w : Window) → (b : Known) → GrowingJoins when w b }
{}

/// A law of the definitions: covering is told at each stamp, and is the same as not growing.
pub fn covering_is_told()
    ensures { (when : Interval) → (w : Window) → (b : Known) → CoveringIsTold when w b }
{}

/// A law of the definitions: trimming keeps the bounds that may be asked for.
pub fn trimming_keeps()
    ensures { (l : Line) → (b : Known) → TrimmingKeeps l b }
{}

/// A law of the definitions: what fits a window before and after.
pub fn fitting_is_kept()
    ensures { (b : Known) → (s : Stamp) → (u : Window) → FittingIsKept b s u }
{}

/// A law of the definitions: bounds that grow at all stamps, then from a stamp on.
pub fn sample_bounds()
    ensures { SampleBounds }
{}
