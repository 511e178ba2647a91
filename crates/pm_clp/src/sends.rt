// What a process does with what comes for its variables and queries.
ghost use Rattle.std.specs.Prelude.{◌≡◌, ◌<◌, ◌+◌, ◌^◌, ◌++◌, false, length, map, slice_get, IfOk, OnOk, Some};
ghost use Rattle.pm_base.specs.Layouts.{class_row, var_count};
ghost use Rattle.pm_base.specs.declared.value.Query.TheVariants as query;
ghost use Rattle.pm_clp.specs.Clps.{Hub, and_then, at_record, class_at, forwards, installed, on_ask, on_cut, on_move};
ghost use Rattle.pm_clp.specs.Clps.{on_put};
ghost use Rattle.pm_clp.specs.Clps.{queries_watch, registered, take_cut, take_put, take_watch, telling};
ghost use Rattle.pm_clp.specs.Kept.{TurnsUpTo};
ghost use Rattle.pm_clp.specs.Views.{Did, DidAny, DidRaise, Stays, asked_at, watch_at};
ghost use Rattle.pm_message.specs.declared.Message.TheVariants as message;
ghost use Rattle.pm_periods.specs.Records.{settled};
ghost use Rattle.pm_queries.specs.Queries.{HasGrown, add_reg, class_queries, has_reg};
ghost use Rattle.pm_routes.specs.Routings.{way_at};
ghost use Rattle.pm_routes.specs.declared.way.Way.TheVariants as way;

use crate::clp::{Clp, all_periods};
use pm_base::{ClassRow, CutRow, List, Memory, Num, Parts, PutRow, Query, Stamp, Window};
use pm_message::Message;
use pm_periods::VarRecord;
use pm_queries::{Registered, Sent};
use pm_routes::Way;
use std::alloc::Global;

impl Clp {
    // Which way the variable is.
    fn way(&self, var: u32) -> Way
        requires { var < var_count self.now.hub.classes }
        ensures { way_at self.now.clp.routing var ≡ Some result }
    {
        self.routes.towards(var)
    }

    // A read that comes for a record here is taken, and counted.
    #[tactic(auto, using(crate::proofs::Stays::record_ways))]
    fn read_here(
        &mut self,
        alloc: Global,
        from: u32,
        num: Num,
        stamp: Stamp,
        var: u32,
        out: &mut List<Sent>,
    ) -> Result<(), Memory>
        requires exists { var < var_count self.old.hub.classes }
        requires here { way_at self.old.clp.routing var ≡ Some way.Here }
        ensures did { OnOk result (Did self.old self.new out.old out.new
            (on_ask self.old.hub from (message.Ask num stamp (query.One var)) num stamp (query.One var))) }
        ensures stays { Stays self.old self.new }
        ensures grown { HasGrown out.old out.new }
    {
        self.record_watch(alloc, var, num, stamp, Window::whole(), out)?;
        self.counting(alloc, var, from, out)
    }

    // A read of one variable goes on, or its record takes it.
    #[tactic(auto, using(crate::proofs::Acts::read_went))]
    pub(crate) fn on_read(
        &mut self,
        alloc: Global,
        from: u32,
        num: Num,
        stamp: Stamp,
        var: u32,
        out: &mut List<Sent>,
    ) -> Result<(), Memory>
        requires { var < var_count self.old.hub.classes }
        ensures did { OnOk result (Did self.old self.new out.old out.new
            (on_ask self.old.hub from (message.Ask num stamp (query.One var)) num stamp (query.One var))) }
        ensures stays { Stays self.old self.new }
        ensures grown { HasGrown out.old out.new }
    {
        match self.way(var) {
            Way::Port(to) => {
                let query = Query::One { var };
                out.push(Sent {
                    to,
                    message: Message::Ask { num, stamp, query },
                })
            }
            Way::Here => self.read_here(alloc, from, num, stamp, var, out),
        }
    }

    // A write that comes for a record here is taken, and the tree ports are told of it.
    fn put_told(
        &mut self,
        alloc: Global,
        var: u32,
        row: PutRow,
        out: &mut List<Sent>,
    ) -> Result<(), Memory>
        requires exists { var < var_count self.old.hub.classes }
        requires turns { self.old.limit < 2 ^ 32 + self.old.made }
        ensures did { OnOk result (DidRaise self.old self.new out.old out.new (λ s. and_then
            (at_record self.old.hub var (take_put var row) s) (telling self.old.hub var row.stamp))) }
        ensures stays { Stays self.old self.new }
        ensures grown { HasGrown out.old out.new }
    {
        self.record_put(alloc, var, row, out)?;
        self.telling(alloc, var, row.stamp, out)
    }

    // And it is counted.
    fn put_here(
        &mut self,
        alloc: Global,
        from: u32,
        var: u32,
        row: PutRow,
        out: &mut List<Sent>,
    ) -> Result<(), Memory>
        requires exists { var < var_count self.old.hub.classes }
        requires here { way_at self.old.clp.routing var ≡ Some way.Here }
        requires turns { self.old.limit < 2 ^ 32 + self.old.made }
        ensures did { OnOk result (DidAny self.old self.new out.old out.new
            (on_put self.old.hub from (message.Put row.num row.stamp var row.change) var row)) }
        ensures stays { Stays self.old self.new }
        ensures grown { HasGrown out.old out.new }
    {
        self.put_told(alloc, var, row, out)?;
        self.counting(alloc, var, from, out)
    }

    // A write goes on, or the record here takes it.
    #[tactic(auto, using(crate::proofs::Acts::put_went))]
    pub(crate) fn on_put(
        &mut self,
        alloc: Global,
        from: u32,
        var: u32,
        row: PutRow,
        out: &mut List<Sent>,
    ) -> Result<(), Memory>
        requires exists { var < var_count self.old.hub.classes }
        requires turns { self.old.limit < 2 ^ 32 + self.old.made }
        ensures did { OnOk result (DidAny self.old self.new out.old out.new
            (on_put self.old.hub from (message.Put row.num row.stamp var row.change) var row)) }
        ensures stays { Stays self.old self.new }
        ensures grown { HasGrown out.old out.new }
    {
        match self.way(var) {
            Way::Port(to) => out.push(Sent {
                to,
                message: Message::Put {
                    num: row.num,
                    stamp: row.stamp,
                    var,
                    change: row.change,
                },
            }),
            Way::Here => self.put_here(alloc, from, var, row, out),
        }
    }

    // A withdrawal that comes for a record here is taken, and the tree ports are told of it.
    fn cut_here(
        &mut self,
        alloc: Global,
        var: u32,
        row: CutRow,
        out: &mut List<Sent>,
    ) -> Result<(), Memory>
        requires exists { var < var_count self.old.hub.classes }
        requires here { way_at self.old.clp.routing var ≡ Some way.Here }
        requires turns { self.old.limit < 2 ^ 32 + self.old.made }
        ensures did { OnOk result (DidAny self.old self.new out.old out.new
            (on_cut self.old.hub (message.Cut row.num row.stamp var) var row)) }
        ensures stays { Stays self.old self.new }
        ensures grown { HasGrown out.old out.new }
    {
        self.record_cut(alloc, var, row, out)?;
        self.telling(alloc, var, row.stamp, out)
    }

    // A withdrawal goes on, or the record here takes it.
    #[tactic(auto, using(crate::proofs::Acts::cut_went))]
    pub(crate) fn on_cut(
        &mut self,
        alloc: Global,
        var: u32,
        row: CutRow,
        out: &mut List<Sent>,
    ) -> Result<(), Memory>
        requires exists { var < var_count self.old.hub.classes }
        requires turns { self.old.limit < 2 ^ 32 + self.old.made }
        ensures did { OnOk result (DidAny self.old self.new out.old out.new
            (on_cut self.old.hub (message.Cut row.num row.stamp var) var row)) }
        ensures stays { Stays self.old self.new }
        ensures grown { HasGrown out.old out.new }
    {
        match self.way(var) {
            Way::Port(to) => out.push(Sent {
                to,
                message: Message::Cut {
                    num: row.num,
                    stamp: row.stamp,
                    var,
                },
            }),
            Way::Here => self.cut_here(alloc, var, row, out),
        }
    }
}

impl Clp {
    // Whether a query of that number is registered.
    fn knows(&self, num: Num) -> bool
        ensures { result ≡ has_reg num self.now.clp.queries }
    {
        self.queries.has(num)
    }

    // The members of the class.
    fn members(&self, class: u32) -> ClassRow
        ensures value { result ≡ class_row self.now.hub.classes class }
        ensures few { result.first + result.count < 2 ^ 32 }
    {
        self.layout.class_row(class)
    }

    // The query is one of those registered.
    fn add_query(&mut self, alloc: Global, row: Registered) -> Result<(), Memory>
        requires { has_reg row.num self.old.clp.queries ≡ false }
        ensures did { OnOk result (self.new ≡ record self.old {
          clp = record self.old.clp { queries = add_reg row self.old.clp.queries };
        }) }
        ensures stays { Stays self.old self.new }
    {
        self.queries.register(alloc, row)
    }

    // The query is registered, and goes on to the ports behind which it may meet a value.
    fn register(
        &mut self,
        alloc: Global,
        from: u32,
        num: Num,
        stamp: Stamp,
        class: u32,
        window: Window,
        out: &mut List<Sent>,
    ) -> Result<(), Memory>
        requires { has_reg num self.old.clp.queries ≡ false }
        ensures did { OnOk result (Did self.old self.new out.old out.new
            (registered self.old.hub from num stamp class window)) }
        ensures stays { Stays self.old self.new }
        ensures grown { HasGrown out.old out.new }
    {
        let waits = self.next_ports(alloc, from, class, stamp, window)?;
        let sent = copy_of(alloc, &waits)?;
        let row = Registered {
            num,
            stamp,
            class,
            window,
            from,
            sent,
            waits,
        };
        forward(&row, out)?;
        self.add_query(alloc, row)
    }

    // A class query is taken by each record of the class here, and registered; asked again it does nothing.
    #[tactic(auto, using(crate::proofs::Acts::known_did, crate::proofs::Acts::scanned_did))]
    pub(crate) fn on_scan(
        &mut self,
        alloc: Global,
        from: u32,
        num: Num,
        stamp: Stamp,
        class: u32,
        window: Window,
        out: &mut List<Sent>,
    ) -> Result<(), Memory>
        ensures did { OnOk result (Did self.old self.new out.old out.new (on_ask self.old.hub from
            (message.Ask num stamp (query.Class class window)) num stamp (query.Class class window))) }
        ensures stays { Stays self.old self.new }
        ensures grown { HasGrown out.old out.new }
    {
        if self.knows(num) {
            return Ok(());
        }
        let row = self.members(class);
        self.watch_class(alloc, num, stamp, window, row, out)?;
        self.register(alloc, from, num, stamp, class, window, out)
    }
}

impl Clp {
    // The class of the variable.
    fn class_of(&self, var: u32) -> u32
        requires { var < var_count self.now.hub.classes }
        ensures { result ≡ class_at self.now.hub var }
    {
        self.layout.class_of(var)
    }

    // A record that comes from the port is here.
    fn install(&mut self, alloc: Global, from: u32, var: u32, parts: &Parts) -> Result<(), Memory>
        requires exists { var < var_count self.old.hub.classes }
        requires away { way_at self.old.clp.routing var ≡ Some way.Here → ⊥ }
        requires turns { TurnsUpTo (2 ^ 32) parts.now }
        ensures did { OnOk result (self.new ≡ record self.old {
          clp = installed self.old.hub from var (settled parts.now) self.old.clp;
        }) }
        ensures stays { Stays self.old self.new }
    {
        let held = VarRecord::from_parts(alloc, var, parts)?;
        let class = self.class_of(var);
        let place = self.place_of(from);
        let periods = all_periods(alloc, &held)?;
        self.told
            .grow_periods(alloc, place, class, periods.as_slice())?;
        self.routes.arrive(var);
        self.records.install(var, held)
    }

    // The query of that place among those of the class.
    fn query_at(&self, class: u32, at: usize) -> &Registered
        requires { at < length (class_queries class self.now.clp.queries) }
        ensures { slice_get (class_queries class self.now.clp.queries) at ≡ Some result.now }
    {
        &self.queries.of_class(class)[at]
    }

    // How many queries of the class there are.
    fn query_count(&self, class: u32) -> usize
        ensures { result ≡ length (class_queries class self.now.clp.queries) }
    {
        self.queries.of_class(class).len()
    }

    // The variable's record takes the read of the query of that place among those of the class.
    fn watch_query(
        &mut self,
        alloc: Global,
        var: u32,
        class: u32,
        at: usize,
        out: &mut List<Sent>,
    ) -> Result<(), Memory>
        requires { at < length (class_queries class self.old.clp.queries) }
        ensures did { OnOk result (Did self.old self.new out.old out.new
            (watch_at self.old.hub var (slice_get (class_queries class self.old.clp.queries) at))) }
        ensures stays { Stays self.old self.new }
        ensures grown { HasGrown out.old out.new }
    {
        let row = self.query_at(class, at);
        let num = row.num;
        let stamp = row.stamp;
        let window = row.window;
        self.record_watch(alloc, var, num, stamp, window, out)
    }

    // The variable's record takes the registered queries of its class, in order.
    fn watch_queries(&mut self, alloc: Global, var: u32, out: &mut List<Sent>) -> Result<(), Memory>
        requires { var < var_count self.old.hub.classes }
        ensures did { OnOk result (Did self.old self.new out.old out.new
            (queries_watch self.old.hub var self.old.clp.queries)) }
        ensures stays { Stays self.old self.new }
        ensures grown { HasGrown out.old out.new }
    {
        let class = self.class_of(var);
        for at in 0..self.query_count(class) {
            self.watch_query(alloc, var, class, at, out)?;
        }
        Ok(())
    }

    // A record comes, and the registered queries of its class watch it.
    #[tactic(auto, using(crate::proofs::Acts::moved_did))]
    pub(crate) fn on_move(
        &mut self,
        alloc: Global,
        from: u32,
        var: u32,
        parts: &Parts,
        out: &mut List<Sent>,
    ) -> Result<(), Memory>
        requires exists { var < var_count self.old.hub.classes }
        requires away { way_at self.old.clp.routing var ≡ Some way.Here → ⊥ }
        requires turns { TurnsUpTo (2 ^ 32) parts.now }
        ensures did { OnOk result (Did self.old self.new out.old out.new (on_move self.old.hub from var parts.now)) }
        ensures stays { Stays self.old self.new }
        ensures grown { HasGrown out.old out.new }
    {
        self.install(alloc, from, var, parts)?;
        self.watch_queries(alloc, var, out)
    }
}

// The query goes on to the ports that it waits for; where there are none, Finish goes back.
fn forward(row: &Registered, out: &mut List<Sent>) -> Result<(), Memory>
    ensures sent { (h : Hub) → OnOk result (out.new ≡ out.old ++ forwards h row.now.from row.now row.now.waits) }
    ensures grown { HasGrown out.old out.new }
{
    if row.waits.len() == 0 {
        return out.push(Sent {
            to: row.from,
            message: Message::Finish {
                num: row.num,
                stamp: row.stamp,
            },
        });
    }
    forward_each(row, out)
}

// To each of the ports that it waits for, in order.
fn forward_each(row: &Registered, out: &mut List<Sent>) -> Result<(), Memory>
    ensures sent { OnOk result (out.new ≡ out.old ++ map (asked_at row.now) row.now.waits) }
    ensures grown { HasGrown out.old out.new }
{
    let ports = row.waits.as_slice();
    for port in ports {
        out.push(ask_at(row, *port))?;
    }
    Ok(())
}

// The query on its way to the port.
fn ask_at(row: &Registered, port: u32) -> Sent
    ensures { result ≡ asked_at row.now port }
{
    let query = Query::Class {
        class: row.class,
        window: row.window,
    };
    Sent {
        to: port,
        message: Message::Ask {
            num: row.num,
            stamp: row.stamp,
            query,
        },
    }
}

fn copy_of(alloc: Global, ports: &List<u32>) -> Result<List<u32>, Memory>
    ensures { IfOk result (λ copy. copy ≡ ports.now) }
{
    Ok(List::from_vec(Vec::from_slice(alloc, ports.as_slice())?))
}
