ghost use Rattle.std.specs.Prelude.{◌≡◌, false};
ghost use Rattle.pm_base.specs.Windows.{is_inverted};

use crate::Table;
use pm_base::{ClassRow, Interval, Line, Memory, Period, Stamp, Value, Window};
use pm_routes::Way;
use std::alloc::Global;
use std::test::Fail;

fn at(time: u64) -> Stamp {
    Stamp { time, agent: 0 }
}

fn point(x: i64, y: i64) -> Window
    ensures { is_inverted result ≡ false }
{
    Window::point(Value { x, y })
}

/// Of one class, variable 0 is here with (1,2), and variable 1 is behind port 4 with (5,6). The ports are 1 and 4.
fn first_tables(alloc: Global) -> Result<(Table, Table), Memory> {
    let classes = [ClassRow { first: 0, count: 2 }];
    let ways = [Way::Here, Way::Port(4)];
    let values = [Value { x: 1, y: 2 }, Value { x: 5, y: 6 }];
    let ports = [1, 4];
    let bound = Table::bound(alloc, &classes, &ways, &values, &ports)?;
    let told = Table::told(alloc, &classes, &ways, &values, &ports)?;
    Ok((bound, told))
}

#[test]
fn first_values_stand_behind_their_ports(rt: HostRuntime) -> Result<(), Fail> {
    let (bound, told) = first_tables(rt.alloc())?;
    let all = Window::whole();
    assert!(rt; !bound.may_hold(0, 0, at(0), &all) && bound.may_hold(1, 0, at(9), &point(5, 6)));
    assert!(rt; !bound.may_hold(1, 0, at(9), &point(1, 2)));
    // port 1's neighbour was told of both, port 4's of variable 0
    assert!(rt;
        told.may_hold(0, 0, at(0), &point(3, 4)) && !told.may_hold(1, 0, at(0), &point(5, 6))
    );
    assert!(rt; told.may_hold(1, 0, at(0), &point(1, 2)));
    assert!(rt; !told.may_hold(2, 0, at(0), &all) && !told.may_hold(0, 1, at(0), &all));
    Ok(())
}

#[test]
fn tables_grow_where_they_are_told(rt: HostRuntime) -> Result<(), Fail> {
    let (mut bound, _) = first_tables(rt.alloc())?;
    let later = Interval {
        from: Some(at(3)),
        until: None,
    };
    assert!(rt; bound.grow(rt.alloc(), 0, 0, later, point(7, 7))?);
    assert!(rt; !bound.grow(rt.alloc(), 0, 0, later, point(7, 7))?);
    assert!(rt;
        !bound.may_hold(0, 0, at(3), &point(7, 7)) && bound.may_hold(0, 0, at(4), &point(7, 7))
    );
    let period = Period {
        when: later,
        value: Value { x: 9, y: 9 },
    };
    bound.grow_periods(rt.alloc(), 1, 0, &[period])?;
    assert!(rt;
        bound.may_hold(1, 0, at(4), &point(9, 9)) && !bound.may_hold(1, 0, at(3), &point(9, 9))
    );
    bound.trim(Line::At(at(4)));
    assert!(rt; bound.may_hold(1, 0, at(4), &point(9, 9)) && bound.at(1, 0).is_some());
    // where there is no such place or class the table stays
    assert!(rt;
        bound.grow(rt.alloc(), 2, 0, later, point(7, 7))?
            && bound.grow(rt.alloc(), 0, 1, later, point(7, 7))?
    );
    assert!(rt; bound.at(2, 0).is_none() && bound.at(0, 1).is_none());
    Ok(())
}
