// The window of an epoch.
ghost use Rattle.std.specs.Prelude.{◌≡◌, ◌≤◌, ◌<◌, ◌-◌, ◌^◌, IfSome};
ghost use Rattle.pm_base.specs.declared.stamp.Line.TheVariants.{At};
ghost use Rattle.pm_base.specs.declared.stamp.Stamp.{Stamp as TheStamp};
ghost use Rattle.pm_kernel.specs.Runs.{IsTimelyLine, IsWithin};
ghost use Rattle.pm_sim.specs.Ready.{IsAbove, window_at};

use pm_base::{Line, Stamp};

// The line so many times behind this one, up to the end of 64 bits.
fn behind(least: Line, width: u64) -> Line
    requires timely { IsTimelyLine least }
    requires wide { 1 ≤ width }
    ensures within { IsWithin result (window_at width least) }
    ensures above { IsAbove result least }
{
    match least {
        Line::At(stamp) => Line::At(Stamp {
            time: stamp.time.saturating_add(width),
            agent: 0,
        }),
        Line::End => Line::End,
    }
}

// The narrower of a window and the kernel's own bound, where this is above the least line.
fn narrower(least: Line, wide: Line, bound: Option<Line>) -> Line
    requires above { IsAbove wide least }
    ensures within { IsWithin result wide }
    ensures above { IsAbove result least }
{
    match bound {
        Some(bound) if least.is_lower(&bound) && bound.is_lower(&wide) => bound,
        _ => wide,
    }
}

// The widest window: of the given width, where one is given.
fn widest(least: Line, width: Option<u64>) -> Line
    requires timely { IsTimelyLine least }
    requires wide { IfSome width (λ w. 1 ≤ w) }
    ensures within { IfSome width (λ w. IsWithin result (window_at w least)) }
    ensures above { IsAbove result least }
{
    match width {
        Some(width) => behind(least, width),
        None => Line::End,
    }
}

/// The window of an epoch that begins at the least line: of the given width, where one is given, and no wider than the
/// kernel's own bound, where there is one.
pub fn window_of(least: Line, width: Option<u64>, bound: Option<Line>) -> Line
    requires timely { IsTimelyLine least }
    requires wide { IfSome width (λ w. 1 ≤ w) }
    ensures within { IfSome width (λ w. IsWithin result (window_at w least)) }
    ensures above { IsAbove result least }
{
    narrower(least, widest(least, width), bound)
}
