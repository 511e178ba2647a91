ghost use Rattle.std.specs.Prelude.{◌≡◌, ◌++◌, ◌+◌, ◌<◌, ◌≤◌, ◌^◌, IfOk, OnOk, slice_get};
ghost use Rattle.pm_base.specs.Layouts.{IsLayout};
ghost use Rattle.pm_base.specs.declared.value.Query.TheVariants as query;
ghost use Rattle.pm_model.specs.Hits.{hits, shown, shown_in};

use pm_base::{Hit, Layout, List, Memory, Query, Value, Window};
use std::alloc::Global;

fn value_at(values: &[Value], var: u32) -> Option<Value>
    ensures { result ≡ slice_get values.now var }
{
    values.get(var as usize).copied()
}

/// That variable alone, where it has a value.
fn shown(alloc: Global, var: u32, value: Option<Value>) -> Result<List<Hit>, Memory>
    ensures { IfOk result (λ h. h ≡ shown var value) }
{
    let mut hits = List::new(alloc);
    match value {
        Some(value) => {
            hits.push(Hit { var, value })?;
            Ok(hits)
        }
        None => Ok(hits),
    }
}

/// What a query of one variable is answered.
fn one_hit(alloc: Global, layout: &Layout, values: &[Value], var: u32) -> Result<List<Hit>, Memory>
    ensures { IfOk result (λ h. h ≡ hits layout.now.classes values.now (query.One var)) }
{
    let _ = layout;
    let hits = shown(alloc, var, value_at(values, var))?;
    Ok(hits)
}

/// Adds a variable, where it is there and its value is inside.
fn add_inside(
    hits: &mut List<Hit>,
    values: &[Value],
    var: u32,
    window: &Window,
) -> Result<(), Memory>
    ensures { OnOk result (hits.new ≡ hits.old ++ shown_in window.now var (slice_get values.now var)) }
{
    match value_at(values, var) {
        Some(value) => if value.inside(window) {
            hits.push(Hit { var, value })
        } else {
            Ok(())
        },
        None => Ok(()),
    }
}

/// What a query of the members of a class is answered. It looks at no other variable.
fn class_hits(
    alloc: Global,
    layout: &Layout,
    values: &[Value],
    class: u32,
    window: &Window,
) -> Result<List<Hit>, Memory>
    requires { IsLayout layout.now }
    ensures { IfOk result (λ h. h ≡ hits layout.now.classes values.now (query.Class class window.now)) }
{
    let row = layout.class_row(class);
    let mut hits = List::new(alloc);
    for var in row.first..row.first + row.count {
        add_inside(&mut hits, values, var, window)?;
    }
    Ok(hits)
}

/// What a query is answered from these values, in order of variable number.
pub fn hits(
    alloc: Global,
    layout: &Layout,
    values: &[Value],
    query: &Query,
) -> Result<List<Hit>, Memory>
    requires { IsLayout layout.now }
    ensures { IfOk result (λ h. h ≡ hits layout.now.classes values.now query.now) }
{
    match query {
        Query::One { var } => one_hit(alloc, layout, values, *var),
        Query::Class { class, window } => class_hits(alloc, layout, values, *class, window),
    }
}
