ghost use Rattle.std.specs.Prelude.{◌≡◌, false};
ghost use Rattle.pm_base.specs.Stamps.{is_below};

use crate::Bounds;
use pm_base::{Interval, Line, Memory, Stamp, Value, Window};
use std::alloc::Global;
use std::test::Fail;

const ALL: Interval = Interval {
    from: None,
    until: None,
};

fn at(time: u64, agent: u32) -> Stamp
    ensures { result ≡ record { time = time; agent = agent } }
{
    Stamp { time, agent }
}

/// The stamps after agent 0's at the one time, up to agent 0's at the other.
fn between(from: u64, until: u64) -> Interval {
    Interval {
        from: Some(at(from, 0)),
        until: Some(at(until, 0)),
    }
}

/// The stamps after agent 0's at this time.
fn after(from: u64) -> Interval {
    Interval {
        from: Some(at(from, 0)),
        until: None,
    }
}

fn across(x0: i64, x1: i64) -> Option<Window> {
    Some(Window {
        x0,
        x1,
        y0: 0,
        y1: 0,
    })
}

/// Grows by the point of this number.
fn grow(bounds: &mut Bounds, alloc: Global, when: Interval, x: i64) -> Result<bool, Memory>
    ensures { bounds.new.line ≡ bounds.old.line }
{
    let window = Window::point(Value { x, y: 0 });
    if window.is_inverted() {
        return Ok(false);
    }
    bounds.grow(alloc, when, window)
}

#[test]
fn bounds_join_what_grew(rt: HostRuntime) -> Result<(), Fail> {
    let alloc = rt.alloc();
    let mut bounds = Bounds::new(alloc);
    assert!(rt; bounds.bound_at(at(0, 0)) == None);
    assert!(rt; grow(&mut bounds, alloc, ALL, 0)?);
    assert!(rt; grow(&mut bounds, alloc, after(3), 5)?);
    assert!(rt; bounds.bound_at(at(3, 0)) == across(0, 0));
    assert!(rt; bounds.bound_at(at(3, 1)) == across(0, 5));
    assert!(rt; !grow(&mut bounds, alloc, between(4, 6), 2)?);
    assert!(rt; grow(&mut bounds, alloc, between(2, 6), 2)?);
    assert!(rt; bounds.bound_at(at(2, 0)) == across(0, 0));
    assert!(rt; bounds.bound_at(at(2, 1)) == across(0, 2));
    Ok(())
}

#[test]
fn intervals_end_where_others_begin(rt: HostRuntime) -> Result<(), Fail> {
    let alloc = rt.alloc();
    let mut bounds = Bounds::new(alloc);
    assert!(rt; grow(&mut bounds, alloc, between(1, 3), 1)?);
    assert!(rt; grow(&mut bounds, alloc, between(3, 5), 2)?);
    assert!(rt; !grow(&mut bounds, alloc, between(5, 5), 9)?);
    assert!(rt; !grow(&mut bounds, alloc, between(5, 2), 9)?);
    assert!(rt; !grow(&mut bounds, alloc, between(1, 3), 1)?);
    for (s, bound) in [
        (at(1, 0), None),
        (at(1, 1), across(1, 1)),
        (at(3, 0), across(1, 1)),
        (at(3, 1), across(2, 2)),
        (at(5, 0), across(2, 2)),
        (at(5, 1), None),
    ] {
        assert!(rt; bounds.bound_at(s) == bound);
    }
    Ok(())
}

#[test]
fn trimming_keeps_what_is_asked(rt: HostRuntime) -> Result<(), Fail> {
    let alloc = rt.alloc();
    let mut bounds = Bounds::new(alloc);
    assert!(rt; grow(&mut bounds, alloc, between(1, 3), 1)?);
    assert!(rt; grow(&mut bounds, alloc, after(2), 2)?);
    bounds.trim(Line::At(at(3, 0)));
    assert!(rt; bounds.bound_at(at(3, 0)) == across(1, 2));
    assert!(rt; bounds.bound_at(at(3, 1)) == across(2, 2));
    assert!(rt; !grow(&mut bounds, alloc, between(0, 2), 9)?);
    assert!(rt; grow(&mut bounds, alloc, between(0, 3), 9)?);
    assert!(rt; bounds.bound_at(at(3, 0)) == across(1, 9));
    bounds.trim(Line::End);
    assert!(rt; !grow(&mut bounds, alloc, ALL, 7)?);
    Ok(())
}
