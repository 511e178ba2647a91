ghost use Rattle.std.specs.Prelude.{◌≡◌, not, false, map, unwrap_or, IfOk, OnOk, OnErr};
ghost use Rattle.std.specs.Option.{option_copied};
ghost use Rattle.pm_base.specs.Windows.{is_inverted};
ghost use Rattle.pm_ranges.specs.Known.{bound_at, covers, nothing_known};
ghost use Rattle.pm_tables.specs.Tables.{bounds_trim, first_bound, first_classes, first_told, grow_in};
ghost use Rattle.pm_tables.specs.Tables.{grow_periods_in, known_in, meets_at};

use crate::port_row::{PortRow, grows_nothing};
use pm_base::{ClassRow, Interval, Line, Memory, Period, Stamp, Value, Window};
use pm_ranges::Bounds;
use pm_routes::Way;
use std::alloc::Global;
use std::marker::Model;

/// What is known of each class behind each tree port, or what a neighbour was told of this side: by the place of the
/// port among the tree ports, then by the class.
#[derive(Debug, Drop)]
pub struct Table {
    ports: Vec<PortRow>,
}

impl Model for Table {
    ghost use Rattle.std.specs.Prelude.{List as Seq};
    ghost use Rattle.pm_ranges.specs.Known.{Known};

    ghost Value = { Seq (Seq Known) };

    ghost view = { λ t. t.ports.items };
}

impl Table {
    /// What may stand behind each port at first: the first values of the variables whose way is that port.
    pub fn bound(
        alloc: Global,
        classes: &[ClassRow],
        ways: &[Way],
        values: &[Value],
        ports: &[u32],
    ) -> Result<Table, Memory>
        ensures { IfOk result (λ t. t ≡ first_bound classes.now ways.now values.now ports.now) }
    {
        let ports = first_rows(alloc, true, classes, ways, values, ports)?;
        Ok(Table { ports })
    }

    /// What each neighbour was told at first: the first values of the variables whose way is not the port to it.
    pub fn told(
        alloc: Global,
        classes: &[ClassRow],
        ways: &[Way],
        values: &[Value],
        ports: &[u32],
    ) -> Result<Table, Memory>
        ensures { IfOk result (λ t. t ≡ first_told classes.now ways.now values.now ports.now) }
    {
        let ports = first_rows(alloc, false, classes, ways, values, ports)?;
        Ok(Table { ports })
    }

    /// What is known there, lent: None where there is no such place or no such class.
    pub fn at(&self, place: usize, class: u32) -> Option<&Bounds>
        ensures { unwrap_or (option_copied result) nothing_known ≡ known_in place class self.now }
    {
        match self.ports.get(place) {
            Some(row) => row.at(class as usize),
            None => None,
        }
    }

    /// Whether what may stand there at the stamp meets the window. Where there is no such place or class nothing does.
    pub fn may_hold(&self, place: usize, class: u32, s: Stamp, window: &Window) -> bool
        ensures { result ≡ meets_at window.now (bound_at (known_in place class self.now) s) }
    {
        match self.at(place, class) {
            Some(bounds) => meets_bound(bounds, s, window),
            None => false,
        }
    }

    /// Joins the window to the bounds of the interval there, and tells whether that changed one that may be asked for.
    /// Where it didn't, the table is as it was. Where there is no such place or class the table stays, and the answer
    /// is that of bounds of which nothing is known. After `Memory` nothing changed.
    pub fn grow(
        &mut self,
        alloc: Global,
        place: usize,
        class: u32,
        when: Interval,
        window: Window,
    ) -> Result<bool, Memory>
        requires { is_inverted window ≡ false }
        ensures table { OnOk result (self.new ≡ grow_in place class when window self.old) }
        ensures value { IfOk result (λ grew. grew ≡ not (covers (known_in place class self.old) when window)) }
        ensures same { IfOk result (λ grew. grew ≡ false → self.new ≡ self.old) }
        ensures err { OnErr result (self.new ≡ self.old) }
    {
        if place >= self.ports.len() {
            return Ok(grows_nothing(alloc, &when, &window));
        }
        let row = &mut self.ports[place];
        row.grow(alloc, class as usize, when, window)
    }

    /// Joins the points of these periods, in order. After `Memory` those before have been joined.
    pub fn grow_periods(
        &mut self,
        alloc: Global,
        place: usize,
        class: u32,
        periods: &[Period],
    ) -> Result<(), Memory>
        ensures { OnOk result (self.new ≡ grow_periods_in place class periods.now self.old) }
    {
        for period in periods {
            let window = Window::point(period.value);
            self.grow(alloc, place, class, period.when, window)?;
        }
        Ok(())
    }

    /// Sets the line of all bounds, and drops what they hold below it.
    pub fn trim(&mut self, line: Line)
        ensures { self.new ≡ bounds_trim line self.old }
    {
        for row in self.ports.iter_mut() {
            row.trim(line);
        }
    }
}

/// The first rows of a table: for each port what is behind it, or what is on this side of it.
fn first_rows(
    alloc: Global,
    behind: bool,
    classes: &[ClassRow],
    ways: &[Way],
    values: &[Value],
    ports: &[u32],
) -> Result<Vec<PortRow>, Memory>
    ensures { IfOk result (λ rows. rows.items ≡
        map (first_classes behind classes.now ways.now values.now) ports.now) }
{
    let mut rows = Vec::with_capacity(alloc, ports.len())?;
    for port in ports {
        rows.push(PortRow::first(alloc, behind, *port, classes, ways, values)?)?;
    }
    Ok(rows)
}

fn meets_bound(bounds: &Bounds, s: Stamp, window: &Window) -> bool
    ensures { result ≡ meets_at window.now (bound_at bounds.now s) }
{
    match bounds.bound_at(s) {
        Some(bound) => bound.meets(window),
        None => false,
    }
}
