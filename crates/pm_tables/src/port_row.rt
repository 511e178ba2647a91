ghost use Rattle.std.specs.Prelude.{◌≡◌, not, false, map, get_or, slice_get, set, IfOk, OnOk, OnErr};
ghost use Rattle.std.specs.Option.{option_copied};
ghost use Rattle.pm_base.specs.Windows.{is_inverted};
ghost use Rattle.pm_ranges.specs.Known.{covers, grown, nothing_known, trimmed};
ghost use Rattle.pm_tables.specs.Tables.{first_classes};

use crate::first::first_bounds;
use pm_base::{ClassRow, Interval, Line, Memory, Value, Window};
use pm_ranges::Bounds;
use pm_routes::Way;
use std::alloc::Global;
use std::marker::Model;

// What is known of each class at one port.
#[derive(Debug, Drop)]
pub struct PortRow {
    classes: Vec<Bounds>,
}

impl Model for PortRow {
    ghost use Rattle.std.specs.Prelude.{List as Seq};
    ghost use Rattle.pm_ranges.specs.Known.{Known};

    ghost Value = { Seq Known };

    ghost view = { λ r. r.classes.items };
}

// Whether what isn't known yet would grow.
pub fn grows_nothing(alloc: Global, when: &Interval, window: &Window) -> bool
    requires { is_inverted window.now ≡ false }
    ensures { result ≡ not (covers nothing_known when.now window.now) }
{
    !Bounds::new(alloc).covers(when, window)
}

impl PortRow {
    // What is known at first.
    pub fn first(
        alloc: Global,
        behind: bool,
        port: u32,
        classes: &[ClassRow],
        ways: &[Way],
        values: &[Value],
    ) -> Result<PortRow, Memory>
        ensures { IfOk result (λ r. r ≡ first_classes behind classes.now ways.now values.now port) }
    {
        let mut bounds = Vec::with_capacity(alloc, classes.len())?;
        for class in classes {
            bounds.push(first_bounds(alloc, behind, port, *class, ways, values)?)?;
        }
        Ok(PortRow { classes: bounds })
    }

    // None where there is no such class.
    pub fn at(&self, class: usize) -> Option<&Bounds>
        ensures { option_copied result ≡ slice_get self.now class }
    {
        self.classes.get(class)
    }

    // Nothing changes where there is no such class.
    pub fn grow(
        &mut self,
        alloc: Global,
        class: usize,
        when: Interval,
        window: Window,
    ) -> Result<bool, Memory>
        requires { is_inverted window ≡ false }
        ensures row { OnOk result (self.new ≡
            set self.old class (grown when window (get_or self.old class nothing_known))) }
        ensures value { IfOk result (λ grew. grew ≡ not (covers (get_or self.old class nothing_known) when window)) }
        ensures same { IfOk result (λ grew. grew ≡ false → self.new ≡ self.old) }
        ensures err { OnErr result (self.new ≡ self.old) }
    {
        if class >= self.classes.len() {
            return Ok(grows_nothing(alloc, &when, &window));
        }
        let bounds = &mut self.classes[class];
        bounds.grow(alloc, when, window)
    }

    pub fn trim(&mut self, line: Line)
        ensures { self.new ≡ map (trimmed line) self.old }
    {
        for bounds in self.classes.iter_mut() {
            bounds.trim(line);
        }
    }
}
