ghost use Rattle.std.specs.Prelude.{◌≡◌, length, IfOk};
ghost use Rattle.std.specs.Ordering.{nat_cmp};
ghost use Rattle.std.specs.BTreeMap.{get};
ghost use Rattle.pm_routes.specs.Laid.{KnowsPlaces};
ghost use Rattle.pm_routes.specs.Routings.{place_of};

use pm_base::{List, Memory};
use std::alloc::Global;
use std::collections::BTreeMap;
use std::marker::Model;

/// The tree ports, with the first place of each number.
#[derive(Debug, Drop)]
pub struct Places {
    ports: Vec<u32>,
    first: BTreeMap<u32, usize>,
}

impl Model for Places {
    ghost use Rattle.std.specs.Prelude.{List as Seq, ℕ};
    ghost use Rattle.std.specs.Ordering.{nat_cmp};
    ghost use Rattle.std.specs.BTreeMap.{get};
    ghost use Rattle.pm_routes.specs.Laid.{KnowsPlaces};

    ghost Value = { Seq ℕ };

    ghost view = { λ p. p.ports.items };

    ghost invariant = { λ p. KnowsPlaces (get nat_cmp p.first) p.ports.items };
}

impl Places {
    /// The places of these ports.
    pub fn make(alloc: Global, ports: &List<u32>) -> Result<Places, Memory>
        ensures { IfOk result (λ p. p ≡ ports.now) }
    {
        let first = first_places(alloc, ports.as_slice())?;
        let ports = Vec::from_slice(alloc, ports.as_slice())?;
        Ok(Places { ports, first })
    }

    /// How many ports there are.
    pub fn len(&self) -> usize
        ensures { result ≡ length self.now }
    {
        self.ports.len()
    }

    /// The first place of the port, or the number of ports where it is none of them.
    pub fn of(&self, port: u32) -> usize
        ensures { result ≡ place_of self.now port }
    {
        match self.first.get(&port) {
            Some(place) => *place,
            None => self.ports.len(),
        }
    }
}

/// The first place of each port. From the last port to the first, so that an earlier place takes the later one's.
fn first_places(alloc: Global, ports: &[u32]) -> Result<BTreeMap<u32, usize>, Memory>
    ensures { IfOk result (λ m. KnowsPlaces (get nat_cmp m) ports.now) }
{
    let mut first = BTreeMap::new(alloc);
    for place in (0..ports.len()).rev() {
        first.insert(ports[place], place)?;
    }
    Ok(first)
}
