ghost use Rattle.std.specs.Prelude.{◌≡◌, [], ◌∷◌, IfOk, Some};
ghost use Rattle.pm_routes.specs.declared.way.Way.TheVariants as way;
ghost use Rattle.pm_routes.specs.Routings.{first_routing, way_at};

use crate::{Routes, Way};
use pm_base::{List, Memory};
use std::alloc::Global;

/// Variable 0 is here, variable 1 behind port 3; the ports are 0 and 3.
fn two_ports(alloc: Global, move_after: u64) -> Result<Routes, Memory>
    ensures { IfOk result (λ r. r ≡ first_routing (way.Here ∷ way.Port 3 ∷ []) (0 ∷ 3 ∷ []) move_after) }
{
    let mut ways = List::new(alloc);
    ways.push(Way::Here)?;
    ways.push(Way::Port(3))?;
    let mut ports = List::new(alloc);
    ports.push(0)?;
    ports.push(3)?;
    Routes::make(alloc, &ways, &ports, move_after)
}

/// What the last of these accesses to variable 0 answers.
fn last_answer(routes: &mut Routes, accesses: &[u32]) -> Option<u32>
    requires { way_at routes.old 0 ≡ Some way.Here }
{
    let mut last = None;
    for from in accesses {
        last = routes.count(0, *from);
    }
    last
}

#[test]
fn accesses_draw_a_variable(rt: HostRuntime) {
    // what is counted, in order, at what threshold, and whether the last one draws the variable
    let rows = [
        (2, [3].as_slice(), false),
        (2, [3, 3].as_slice(), true),
        (2, [9, 9, 3].as_slice(), false),
        (2, [9, 9, 3, 3].as_slice(), false),
        (2, [9, 9, 3, 3, 3].as_slice(), true),
        (2, [0, 9, 3, 3].as_slice(), false),
        (2, [0, 9, 3, 3, 3].as_slice(), true),
        (1, [0].as_slice(), true),
        (1, [9].as_slice(), false),
        (0, [3, 3, 3].as_slice(), false),
    ];
    for (move_after, accesses, drawn) in rows {
        let mut routes = two_ports(rt.alloc(), move_after).expect(&rt, "memory");
        assert!(rt; last_answer(&mut routes, accesses).is_some() == drawn);
    }
}

#[test]
fn a_variable_leaves_and_comes_back(rt: HostRuntime) {
    let mut routes = two_ports(rt.alloc(), 2).expect(&rt, "memory");
    assert!(rt; routes.count(0, 3) == None);
    routes.leave(0, 3);
    assert!(rt; routes.towards(0) == Way::Port(3) && routes.towards(1) == Way::Port(3));
    routes.arrive(0);
    assert!(rt; routes.towards(0) == Way::Here);
    // the count from before it left is gone
    assert!(rt; routes.count(0, 3) == None);
    assert!(rt; routes.count(0, 3) == Some(3));
}
