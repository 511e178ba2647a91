ghost use Rattle.std.specs.Prelude.{◌≡◌, length, IfOk};
ghost use Rattle.pm_base.specs.Layouts.{IsLayout, var_count};
ghost use Rattle.pm_clp.specs.First.{first_view};

use crate::clp::Clp;
use crate::records::Records;
use pm_base::{Layout, Line, List, Memory, Stamp, Value};
use pm_queries::Queries;
use pm_routes::{Routes, Way};
use pm_tables::Table;
use std::alloc::Global;

/// What a communication process is made of: its tree neighbours, ascending; for each agent the process towards it,
/// which is the agent's own where its home is here; and, for each variable of the layout, its way and its first value.
/// `move_after` is how many counts at a tree neighbour draw a variable there, 0 for never.
#[derive(Debug, Drop)]
pub struct ClpParts {
    pub ports: List<u32>,
    pub to_agents: List<u32>,
    pub ways: List<Way>,
    pub layout: Layout,
    pub values: List<Value>,
    pub move_after: u64,
}

impl Clp {
    ghost use Rattle.pm_clp.specs.First.{first_view};

    /// A process to which nothing has come.
    pub fn first(alloc: Global, parts: ClpParts) -> Result<Clp, Memory>
        requires layout { IsLayout parts.layout }
        requires ways { length parts.ways ≡ var_count parts.layout.classes }
        requires values { length parts.values ≡ length parts.ways }
        ensures { IfOk result (λ c. c ≡ first_view parts) }
    {
        let classes = parts.layout.classes.as_slice();
        let ways = parts.ways.as_slice();
        let values = parts.values.as_slice();
        let ports = parts.ports.as_slice();
        let records = Records::first(alloc, ways, values)?;
        let bound = Table::bound(alloc, classes, ways, values, ports)?;
        let told = Table::told(alloc, classes, ways, values, ports)?;
        let routes = Routes::make(alloc, &parts.ways, &parts.ports, parts.move_after)?;
        let queries = Queries::new(alloc);
        Ok(Clp {
            ports: parts.ports,
            to_agents: parts.to_agents,
            layout: parts.layout,
            records,
            routes,
            line: Line::At(Stamp { time: 0, agent: 0 }),
            queries,
            bound,
            told,
            made: 0,
            spoilt: false,
        })
    }
}
