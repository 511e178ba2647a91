// A communication process.
ghost use Rattle.std.specs.Prelude.{◌≡◌, ◌<◌, ◌+◌, ◌^◌, [], ◌∷◌, ◌++◌, false, if◌then◌else◌, filter, get_or, length};
ghost use Rattle.std.specs.Prelude.{map, IfOk, None, OnOk, Some};
ghost use Rattle.std.specs.Option.{option_to_list};
ghost use Rattle.pm_base.specs.Windows.{is_inverted};
ghost use Rattle.pm_base.specs.Layouts.{var_count};
ghost use Rattle.pm_clp.specs.Clps.{after_finish, at_record, catch_up, clp_committed, counting, floor_of, grow_bound};
ghost use Rattle.pm_clp.specs.Clps.{on_grow, sent_on};
ghost use Rattle.pm_clp.specs.Clps.{take_cut, take_put, take_watch, tell, tell_from, tell_one, tell_periods, telling};
ghost use Rattle.pm_clp.specs.Clps.{to_agent, watch_all};
ghost use Rattle.pm_periods.specs.Periods.{periods_from};
ghost use Rattle.pm_routes.specs.Routings.{place_of, way_at};
ghost use Rattle.pm_routes.specs.declared.way.Way.TheVariants as way;
ghost use Rattle.pm_clp.specs.Views.{Did, DidRaise, Stays, give_to, leave, others, sent_if, sent_off};
ghost use Rattle.pm_queries.specs.Queries.{HasGrown};

use crate::records::Records;
use pm_base::{
    ClassRow, CutRow, GiveRow, Interval, Layout, Line, List, Memory, Num, Period, PutRow, Stamp,
    Window,
};
use pm_message::Message;
use pm_periods::VarRecord;
use pm_queries::{Queries, Sent};
use pm_routes::{Routes, Way};
use pm_tables::Table;
use std::alloc::Global;
use std::marker::Model;

/// A communication process between messages.
#[derive(Debug, Drop)]
pub struct Clp {
    pub(crate) ports: List<u32>,
    pub(crate) to_agents: List<u32>,
    pub(crate) layout: Layout,
    pub(crate) records: Records,
    pub(crate) routes: Routes,
    pub(crate) line: Line,
    pub(crate) queries: Queries,
    pub(crate) bound: Table,
    pub(crate) told: Table,
    pub(crate) made: u64,
    pub(crate) spoilt: bool,
}

impl Model for Clp {
    ghost use Rattle.pm_clp.specs.Views.{ClpView, IsClp, hub_of, state_of};

    ghost Value = { ClpView };

    ghost view = { λ c. record {
      hub = hub_of c.ports c.to_agents c.layout;
      clp = state_of c.records c.routes c.line c.queries c.bound c.told;
      limit = c.records.limit;
      made = c.made;
      spoilt = c.spoilt;
    } };

    ghost invariant = { λ c. IsClp c.ports c.layout c.records c.routes c.made };
}

// A message to each of these reads' agents, in order.
fn send_gives(to_agents: &List<u32>, gives: &[GiveRow], out: &mut List<Sent>) -> Result<(), Memory>
    ensures sent { OnOk result (out.new ≡ out.old ++ map (give_to to_agents.now) gives.now) }
    ensures grown { HasGrown out.old out.new }
{
    for row in gives {
        send_give(to_agents, *row, out)?;
    }
    Ok(())
}

fn send_give(to_agents: &List<u32>, row: GiveRow, out: &mut List<Sent>) -> Result<(), Memory>
    ensures sent { OnOk result (out.new ≡ out.old ++ give_to to_agents.now row ∷ []) }
    ensures grown { HasGrown out.old out.new }
{
    let to = match to_agents.get(row.num.agent as usize) {
        Some(to) => *to,
        None => 0,
    };
    out.push(Sent {
        to,
        message: Message::Give { row },
    })
}

impl Clp {
    // The variable's record, where it is here, takes a write.
    pub(crate) fn record_put(
        &mut self,
        alloc: Global,
        var: u32,
        row: PutRow,
        out: &mut List<Sent>,
    ) -> Result<(), Memory>
        requires { self.old.limit < 2 ^ 32 + self.old.made }
        ensures did { OnOk result (DidRaise self.old self.new out.old out.new
            (at_record self.old.hub var (take_put var row))) }
        ensures stays { Stays self.old self.new }
        ensures grown { HasGrown out.old out.new }
    {
        let gives = self.records.put(alloc, var, row)?;
        send_gives(&self.to_agents, gives.as_slice(), out)
    }

    // The variable's record, where it is here, takes a withdrawal.
    pub(crate) fn record_cut(
        &mut self,
        alloc: Global,
        var: u32,
        row: CutRow,
        out: &mut List<Sent>,
    ) -> Result<(), Memory>
        requires { self.old.limit < 2 ^ 32 + self.old.made }
        ensures did { OnOk result (DidRaise self.old self.new out.old out.new
            (at_record self.old.hub var (take_cut var row))) }
        ensures stays { Stays self.old self.new }
        ensures grown { HasGrown out.old out.new }
    {
        let gives = self.records.cut(alloc, var, row)?;
        send_gives(&self.to_agents, gives.as_slice(), out)
    }

    // The variable's record, where it is here, takes a read.
    pub(crate) fn record_watch(
        &mut self,
        alloc: Global,
        var: u32,
        num: Num,
        stamp: Stamp,
        window: Window,
        out: &mut List<Sent>,
    ) -> Result<(), Memory>
        ensures did { OnOk result (Did self.old self.new out.old out.new
            (at_record self.old.hub var (take_watch var num stamp window))) }
        ensures stays { Stays self.old self.new }
        ensures grown { HasGrown out.old out.new }
    {
        match self.records.watch(alloc, var, num, stamp, window)? {
            Some(row) => send_give(&self.to_agents, row, out),
            None => Ok(()),
        }
    }

    // A port is told of a window of the class in an interval, unless what it was told covers it.
    fn tell_one(
        &mut self,
        alloc: Global,
        class: u32,
        from: Stamp,
        until: Option<Stamp>,
        window: Window,
        port: u32,
        out: &mut List<Sent>,
    ) -> Result<(), Memory>
        requires { is_inverted window ≡ false }
        ensures did { OnOk result (Did self.old self.new out.old out.new
            (tell_one self.old.hub class from until window port)) }
        ensures stays { Stays self.old self.new }
        ensures grown { HasGrown out.old out.new }
    {
        let place = self.place_of(port);
        let when = Interval {
            from: Some(from),
            until,
        };
        let grew = self.told.grow(alloc, place, class, when, window)?;
        push_if(
            grew,
            port,
            Message::Grow {
                class,
                from,
                until,
                window,
            },
            out,
        )
    }

    // The place of a tree port.
    pub(crate) fn place_of(&self, port: u32) -> usize
        ensures { result ≡ place_of self.now.hub.ports port }
    {
        self.routes.place_of(port)
    }

    // Whether a query goes on to the port: it didn't come from there, and a value in its window may stand there.
    fn is_next(&self, from: u32, class: u32, stamp: Stamp, window: &Window, port: u32) -> bool
        ensures { result ≡ sent_on self.now.hub self.now.clp.bound from class stamp window.now port }
    {
        from != port
            && self
                .bound
                .may_hold(self.place_of(port), class, stamp, window)
    }

    // The tree port of that place.
    fn port_at(&self, at: usize) -> u32
        requires { at < length self.now.hub.ports }
        ensures { result ≡ get_or self.now.hub.ports at 0 }
    {
        self.ports.as_slice()[at]
    }

    // The tree ports are told of it, in order, but for one that is passed over.
    fn tell(
        &mut self,
        alloc: Global,
        class: u32,
        from: Stamp,
        until: Option<Stamp>,
        window: Window,
        skip: Option<u32>,
        out: &mut List<Sent>,
    ) -> Result<(), Memory>
        requires { is_inverted window ≡ false }
        ensures did { OnOk result (Did self.old self.new out.old out.new
            (tell self.old.hub class from until window (others skip self.old.hub.ports))) }
        ensures stays { Stays self.old self.new }
        ensures grown { HasGrown out.old out.new }
    {
        for at in 0..self.ports.len() {
            let port = self.port_at(at);
            if skip != Some(port) {
                self.tell_one(alloc, class, from, until, window, port, out)?;
            }
        }
        Ok(())
    }

    // They are told of the value of a period that has a begin.
    fn tell_period(
        &mut self,
        alloc: Global,
        class: u32,
        period: Period,
        out: &mut List<Sent>,
    ) -> Result<(), Memory>
        ensures did { OnOk result (Did self.old self.new out.old out.new
            (tell_from self.old.hub class period.when.from period)) }
        ensures stays { Stays self.old self.new }
        ensures grown { HasGrown out.old out.new }
    {
        match period.when.from {
            None => Ok(()),
            Some(from) => {
                let window = Window::point(period.value);
                self.tell(alloc, class, from, period.when.until, window, None, out)
            }
        }
    }

    // And of each of these periods, in order.
    fn tell_periods(
        &mut self,
        alloc: Global,
        class: u32,
        periods: &[Period],
        out: &mut List<Sent>,
    ) -> Result<(), Memory>
        ensures did { OnOk result (Did self.old self.new out.old out.new
            (tell_periods self.old.hub class periods.now)) }
        ensures stays { Stays self.old self.new }
        ensures grown { HasGrown out.old out.new }
    {
        for period in periods {
            self.tell_period(alloc, class, *period, out)?;
        }
        Ok(())
    }

    // They are told what the variable is after the stamp.
    pub(crate) fn telling(
        &mut self,
        alloc: Global,
        var: u32,
        from: Stamp,
        out: &mut List<Sent>,
    ) -> Result<(), Memory>
        requires { var < var_count self.old.hub.classes }
        ensures did { OnOk result (Did self.old self.new out.old out.new (telling self.old.hub var from)) }
        ensures stays { Stays self.old self.new }
        ensures grown { HasGrown out.old out.new }
    {
        let class = self.layout.class_of(var);
        let periods = self.records.periods(alloc, var, Some(from))?;
        self.tell_periods(alloc, class, periods.as_slice(), out)
    }

    // A record that was taken off is sent to the port, whose bound grows by all its periods.
    fn send_off(
        &mut self,
        alloc: Global,
        var: u32,
        port: u32,
        held: VarRecord,
        out: &mut List<Sent>,
    ) -> Result<(), Memory>
        requires exists { var < var_count self.old.hub.classes }
        requires here { way_at self.old.clp.routing var ≡ Some way.Here }
        ensures did { OnOk result (Did self.old self.new out.old out.new (sent_off self.old.hub var port held.parts)) }
        ensures stays { Stays self.old self.new }
        ensures grown { HasGrown out.old out.new }
    {
        let class = self.layout.class_of(var);
        let place = self.place_of(port);
        let periods = all_periods(alloc, &held)?;
        self.bound
            .grow_periods(alloc, place, class, periods.as_slice())?;
        self.routes.leave(var, port);
        let floor = floor_of(&self.line);
        let parts = held.into_parts(alloc)?;
        out.push(Sent {
            to: port,
            message: Message::Move { var, floor, parts },
        })
    }

    // Each record here of the class's members takes the read.
    pub(crate) fn watch_class(
        &mut self,
        alloc: Global,
        num: Num,
        stamp: Stamp,
        window: Window,
        row: ClassRow,
        out: &mut List<Sent>,
    ) -> Result<(), Memory>
        requires { row.first + row.count < 2 ^ 32 }
        ensures did { OnOk result (Did self.old self.new out.old out.new
            (watch_all self.old.hub num stamp window row.first row.count)) }
        ensures stays { Stays self.old self.new }
        ensures grown { HasGrown out.old out.new }
    {
        let end = row.first + row.count;
        let mut at = self.next_here(row.first, end);
        while at < end {
            self.record_watch(alloc, at, num, stamp, window, out)?;
            at = self.next_here(at + 1, end);
        }
        Ok(())
    }

    // The ports to which the query goes on.
    pub(crate) fn next_ports(
        &self,
        alloc: Global,
        from: u32,
        class: u32,
        stamp: Stamp,
        window: Window,
    ) -> Result<List<u32>, Memory>
        ensures { IfOk result (λ ports. ports ≡
            filter (sent_on self.now.hub self.now.clp.bound from class stamp window) self.now.hub.ports) }
    {
        let mut ports = List::new(alloc);
        for at in 0..self.ports.len() {
            let port = self.port_at(at);
            let is_next = self.is_next(from, class, stamp, &window, port);
            add_if(is_next, port, &mut ports)?;
        }
        Ok(ports)
    }

    // A hit goes on towards its agent.
    pub(crate) fn on_give(&mut self, row: GiveRow, out: &mut List<Sent>) -> Result<(), Memory>
        ensures did { OnOk result (Did self.old self.new out.old out.new
            (λ s. record { clp = s; sent = to_agent self.old.hub row ∷ [] })) }
        ensures stays { Stays self.old self.new }
        ensures grown { HasGrown out.old out.new }
    {
        send_give(&self.to_agents, row, out)
    }

    // More may stand behind the port.
    fn grow_bound(
        &mut self,
        alloc: Global,
        port: u32,
        class: u32,
        when: Interval,
        window: Window,
    ) -> Result<(), Memory>
        requires { is_inverted window ≡ false }
        ensures did { OnOk result (self.new ≡ record self.old {
          clp = grow_bound self.old.hub port class when window self.old.clp;
        }) }
        ensures stays { Stays self.old self.new }
    {
        let place = self.place_of(port);
        self.bound.grow(alloc, place, class, when, window)?;
        Ok(())
    }

    // The queries of the class that came from elsewhere catch up at the port.
    fn catch_up(&mut self, port: u32, class: u32, out: &mut List<Sent>) -> Result<(), Memory>
        ensures did { OnOk result (Did self.old self.new out.old out.new (catch_up self.old.hub port class)) }
        ensures stays { Stays self.old self.new }
        ensures grown { HasGrown out.old out.new }
    {
        let place = self.place_of(port);
        self.queries.catch_up(port, class, &self.bound, place, out)
    }

    // The record of the variable leaves for the port, where it is here, and the port catches up.
    #[tactic(auto, using(crate::proofs::Leaves::stayed_did, crate::proofs::Leaves::left_did))]
    fn leave(
        &mut self,
        alloc: Global,
        var: u32,
        port: u32,
        out: &mut List<Sent>,
    ) -> Result<(), Memory>
        requires exists { var < var_count self.old.hub.classes }
        requires here { way_at self.old.clp.routing var ≡ Some way.Here }
        ensures did { OnOk result (Did self.old self.new out.old out.new (leave self.old.hub var port)) }
        ensures stays { Stays self.old self.new }
        ensures grown { HasGrown out.old out.new }
    {
        match self.records.take(var) {
            None => Ok(()),
            Some(held) => {
                let class = self.layout.class_of(var);
                self.send_off(alloc, var, port, held, out)?;
                self.catch_up(port, class, out)
            }
        }
    }

    // An access to the variable is counted; it leaves for where that came from, once it belongs there.
    #[tactic(auto, using(crate::proofs::Leaves::counted_did, crate::proofs::Leaves::drawn_did))]
    pub(crate) fn counting(
        &mut self,
        alloc: Global,
        var: u32,
        from: u32,
        out: &mut List<Sent>,
    ) -> Result<(), Memory>
        requires exists { var < var_count self.old.hub.classes }
        requires here { way_at self.old.clp.routing var ≡ Some way.Here }
        ensures did { OnOk result (Did self.old self.new out.old out.new (counting self.old.hub var from)) }
        ensures stays { Stays self.old self.new }
        ensures grown { HasGrown out.old out.new }
    {
        match self.routes.count(var, from) {
            None => Ok(()),
            Some(port) => self.leave(alloc, var, port, out),
        }
    }

    // A Finish takes its port off the query that it names.
    pub(crate) fn on_finish(
        &mut self,
        from: u32,
        num: Num,
        out: &mut List<Sent>,
    ) -> Result<(), Memory>
        ensures did { OnOk result (Did self.old self.new out.old out.new (after_finish from num)) }
        ensures stays { Stays self.old self.new }
        ensures grown { HasGrown out.old out.new }
    {
        match self.queries.finish(num, from) {
            None => Ok(()),
            Some(sent) => out.push(sent),
        }
    }

    // More may stand behind the port: queries catch up there, and the other ports are told.
    #[tactic(auto, using(crate::proofs::Leaves::grew_did))]
    pub(crate) fn on_grow(
        &mut self,
        alloc: Global,
        port: u32,
        class: u32,
        from: Stamp,
        until: Option<Stamp>,
        window: Window,
        out: &mut List<Sent>,
    ) -> Result<(), Memory>
        requires { is_inverted window ≡ false }
        ensures did { OnOk result (Did self.old self.new out.old out.new
            (on_grow self.old.hub port class from until window)) }
        ensures stays { Stays self.old self.new }
        ensures grown { HasGrown out.old out.new }
    {
        let when = Interval {
            from: Some(from),
            until,
        };
        self.grow_bound(alloc, port, class, when, window)?;
        self.catch_up(port, class, out)?;
        self.tell(alloc, class, from, until, window, Some(port), out)
    }

    /// How many deliveries were made at this process.
    pub fn made(&self) -> u64
        ensures { result ≡ self.now.made }
    {
        self.made
    }

    /// The line is this one, and what is below it is forgotten. It takes no memory.
    pub fn commit(&mut self, line: Line)
        ensures { self.new ≡ record self.old { clp = clp_committed line self.old.clp } }
    {
        self.line = line;
        self.records.trim(line);
        self.queries.trim(line);
        self.bound.trim(line);
        self.told.trim(line);
    }
}

fn push_if(is_sent: bool, to: u32, message: Message, out: &mut List<Sent>) -> Result<(), Memory>
    ensures sent { OnOk result (out.new ≡ out.old ++ sent_if is_sent to message) }
    ensures grown { HasGrown out.old out.new }
{
    if is_sent {
        out.push(Sent { to, message })
    } else {
        Ok(())
    }
}

fn add_if(is_next: bool, port: u32, ports: &mut List<u32>) -> Result<(), Memory>
    ensures { OnOk result (ports.new ≡ (if is_next then ports.old ++ port ∷ [] else ports.old)) }
{
    if is_next { ports.push(port) } else { Ok(()) }
}

// The stamp of the line.
fn floor_of(line: &Line) -> Stamp
    ensures { result ≡ floor_of line.now }
{
    match line {
        Line::At(stamp) => *stamp,
        Line::End => Stamp { time: 0, agent: 0 },
    }
}

// The periods of a record from its first value on.
pub(crate) fn all_periods(alloc: Global, held: &VarRecord) -> Result<List<Period>, Memory>
    ensures { IfOk result (λ periods. periods ≡ periods_from held.now.parts None) }
{
    held.periods_from(alloc, None)
}
