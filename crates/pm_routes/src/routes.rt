ghost use Rattle.std.specs.Prelude.{◌≡◌, ◌<◌, ◌↔◌, ◌&&◌, nat_lt, nat_le, length, if◌then◌else◌, IfOk, Some, None};
ghost use Rattle.pm_routes.specs.declared.way.Way.TheVariants as way;
ghost use Rattle.pm_routes.specs.Routings.{IsDrawn, arrived, counted, first_routing, is_drawn, left, place_of, way_at};

use crate::counts::Counts;
use crate::places::Places;
use crate::way::Way;
use pm_base::{List, Memory};
use std::alloc::Global;
use std::marker::Model;

/// Which way each variable is, and how often it was asked for from each tree port and from elsewhere. Contracts see
/// the ways, the ports, the threshold and the counts.
#[derive(Debug, Drop)]
pub struct Routes {
    ways: List<Way>,
    places: Places,
    move_after: u64,
    counts: Vec<Counts>,
}

impl Model for Routes {
    ghost use Rattle.pm_routes.specs.Routings.{Routing, routing};
    ghost use Rattle.pm_routes.specs.Laid.{IsLaid};

    ghost Value = { Routing };

    ghost view = { λ r. routing r.ways r.places r.move_after r.counts.items };

    ghost invariant = { λ r. IsLaid r.ways r.places r.counts.items };
}

impl Routes {
    /// These ways, one for each variable, with all counts at 0, and the tree ports, in any order; a port that stands
    /// twice has one count. `move_after` is how many counts at a port draw a variable there, 0 for never.
    pub fn make(
        alloc: Global,
        ways: &List<Way>,
        ports: &List<u32>,
        move_after: u64,
    ) -> Result<Routes, Memory>
        ensures { IfOk result (λ r. r ≡ first_routing ways.now ports.now move_after) }
    {
        let places = Places::make(alloc, ports)?;
        let each = places.len() + 1;
        let mut copy = List::new(alloc);
        let mut counts = Vec::new(alloc);
        for way in ways.as_slice() {
            copy.push(*way)?;
            counts.push(Counts::make(alloc, each)?)?;
        }
        Ok(Routes {
            ways: copy,
            places,
            move_after,
            counts,
        })
    }

    /// Which way the variable is.
    pub fn towards(&self, var: u32) -> Way
        requires exists { var < length self.now.ways }
        ensures { way_at self.now var ≡ Some result }
    {
        self.ways.as_slice()[var as usize]
    }

    /// The place of the port among the tree ports, counted from 0; how many there are where it is none of them. It is
    /// found in an ordered map.
    pub fn place_of(&self, port: u32) -> usize
        ensures { result ≡ place_of self.now.ports port }
    {
        self.places.of(port)
    }

    /// The variable goes to that port. Its counts stay.
    pub fn leave(&mut self, var: u32, port: u32)
        requires here { way_at self.old var ≡ Some way.Here }
        ensures { self.new ≡ left self.old var port }
    {
        self.ways.set(var as usize, Way::Port(port));
    }

    /// The variable is here, and its counts are 0.
    pub fn arrive(&mut self, var: u32)
        requires exists { var < length self.old.ways }
        requires away { way_at self.old var ≡ Some way.Here → ⊥ }
        ensures { self.new ≡ arrived self.old var }
    {
        self.ways.set(var as usize, Way::Here);
        self.counts[var as usize].clear();
    }

    /// Counts an access to the variable from that process: at the tree port of that number, or at the one local count
    /// where there is no such port. A count stops at the greatest number of 64 bits. It answers the port exactly where
    /// the variable belongs there now: `move_after` isn't 0, the count has reached it, and it is more than the
    /// variable's other counts together.
    pub fn count(&mut self, var: u32, from: u32) -> Option<u32>
        requires here { way_at self.old var ≡ Some way.Here }
        ensures counted { self.new ≡ counted self.old var from }
        ensures value { result ≡ (if is_drawn self.new var from then Some from else None) }
        ensures exactly { (result ≡ Some from) ↔ IsDrawn self.new var from }
    {
        let place = self.places.of(from);
        self.counts[var as usize].raise(place);
        let counts = &self.counts[var as usize];
        let is_port = place < self.places.len();
        let is_most = is_most(self.move_after, counts.at(place), counts.others(place));
        some_if(is_port, is_most, from)
    }
}

/// Whether a count has reached the threshold and is more than the others together.
fn is_most(move_after: u64, count: u64, others: u128) -> bool
    ensures { result ≡ (nat_lt 0 move_after && (nat_le move_after count && nat_lt others count)) }
{
    move_after > 0 && (move_after <= count && others < count as u128)
}

fn some_if(is_port: bool, is_most: bool, from: u32) -> Option<u32>
    ensures { result ≡ (if is_port && is_most then Some from else None) }
{
    if is_port && is_most { Some(from) } else { None }
}
