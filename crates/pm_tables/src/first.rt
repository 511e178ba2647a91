// What is known before the run.
ghost use Rattle.std.specs.Prelude.{◌≡◌, get_or, if◌then◌else◌, IfOk, OnOk};
ghost use Rattle.pm_base.specs.Windows.{point_of};
ghost use Rattle.pm_ranges.specs.Known.{grown};
ghost use Rattle.pm_routes.specs.declared.way.Way.TheVariants as way;
ghost use Rattle.pm_tables.specs.Tables.{always, first_row, no_value, stands};

use pm_base::{ClassRow, Interval, Memory, Value, Window};
use pm_ranges::Bounds;
use pm_routes::Way;
use std::alloc::Global;

// What is known of a class at first, behind the port or on this side of it.
pub fn first_bounds(
    alloc: Global,
    behind: bool,
    port: u32,
    class: ClassRow,
    ways: &[Way],
    values: &[Value],
) -> Result<Bounds, Memory>
    ensures { IfOk result (λ b. b ≡ first_row (stands behind port) ways.now values.now class) }
{
    let mut bounds = Bounds::new(alloc);
    for k in 0..class.count as usize {
        let var = class.first as usize + k;
        let is_there = stands(behind, port, way_at(ways, var));
        grow_if(alloc, &mut bounds, is_there, value_at(values, var))?;
    }
    Ok(bounds)
}

fn grow_if(alloc: Global, bounds: &mut Bounds, is_there: bool, value: Value) -> Result<(), Memory>
    ensures { OnOk result (bounds.new ≡ (if is_there then grown always (point_of value) bounds.old else bounds.old)) }
{
    if !is_there {
        return Ok(());
    }
    let all = Interval {
        from: None,
        until: None,
    };
    bounds.grow(alloc, all, Window::point(value))?;
    Ok(())
}

fn stands(behind: bool, port: u32, way: Way) -> bool
    ensures { result ≡ stands behind port way }
{
    let is_towards = match way {
        Way::Here => false,
        Way::Port(towards) => port == towards,
    };
    if behind { is_towards } else { !is_towards }
}

fn way_at(ways: &[Way], var: usize) -> Way
    ensures { result ≡ get_or ways.now var way.Here }
{
    match ways.get(var) {
        Some(way) => *way,
        None => Way::Here,
    }
}

fn value_at(values: &[Value], var: usize) -> Value
    ensures { result ≡ get_or values.now var no_value }
{
    match values.get(var) {
        Some(value) => *value,
        None => Value { x: 0, y: 0 },
    }
}
