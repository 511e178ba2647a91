ghost use Rattle.std.specs.Prelude.{◌≡◌, ◌&&◌, int_le, false};
ghost use Rattle.pm_base.specs.Windows.{is_inverted};
ghost use Rattle.pm_ranges.specs.Joins.{joined, lies_in, within};
ghost use Rattle.pm_ranges.specs.Laid.{Upright};

use pm_base::Window;

/// Whether the ends of the first window are between those of the second.
pub fn within(a: &Window, b: &Window) -> bool
    ensures { result ≡ within a.now b.now }
{
    across(a, b) && along(a, b)
}

fn across(a: &Window, b: &Window) -> bool
    ensures { result ≡ (int_le b.now.x0 a.now.x0 && int_le a.now.x1 b.now.x1) }
{
    b.x0 <= a.x0 && a.x1 <= b.x1
}

fn along(a: &Window, b: &Window) -> bool
    ensures { result ≡ (int_le b.now.y0 a.now.y0 && int_le a.now.y1 b.now.y1) }
{
    b.y0 <= a.y0 && a.y1 <= b.y1
}

/// Whether the window is within the bound; where there is none, it isn't.
pub fn lies_in(window: &Window, bound: &Option<Window>) -> bool
    ensures { result ≡ lies_in window.now bound.now }
{
    match bound {
        Some(bound) => within(window, bound),
        None => false,
    }
}

/// The window joined with the bound, where there is one.
pub fn joined(window: &Window, bound: &Option<Window>) -> Window
    requires window { is_inverted window.now ≡ false }
    requires bound { Upright bound.now }
    ensures { result ≡ joined window.now bound.now }
{
    match bound {
        Some(bound) => window.join(bound),
        None => *window,
    }
}
