// Which messages a process takes.
ghost use Rattle.std.specs.Prelude.{◌≡◌, ◌&&◌, ◌^◌, nat_lt, not};
ghost use Rattle.std.specs.List.{list_all};
ghost use Rattle.pm_base.specs.declared.rows.CutRow.{CutRow as TheCut};
ghost use Rattle.pm_base.specs.declared.rows.PutRow.{PutRow as ThePut};
ghost use Rattle.pm_base.specs.declared.rows.ReadRow.{ReadRow as TheRead};
ghost use Rattle.pm_clp.specs.Clps.{way_of};
ghost use Rattle.pm_clp.specs.Takes.{fits, has_agent, has_agents, has_class, has_low_turns, has_query, has_var};
ghost use Rattle.pm_clp.specs.Takes.{is_here, is_linked, is_port, takes};
ghost use Rattle.pm_queries.specs.Queries.{has};

use crate::clp::Clp;
use pm_base::{CutRow, Num, Parts, PutRow, Query, ReadRow};
use pm_message::Message;
use pm_routes::Way;

// The turns of a record that moves are below this number.
const LOW: u64 = 1 << 32;

// A process makes fewer deliveries than this number.
const MOST: u64 = 20_000_000;

impl Clp {
    /// Whether the message can stand in a link from that process: exactly where its delivery is defined. It takes no
    /// memory.
    pub fn takes(&self, from: u32, message: &Message) -> bool
        ensures { result ≡ takes self.now.hub self.now.made self.now.clp from message.now }
    {
        self.made < MOST
            && self.is_linked(from)
            && (!self.line.is_past(message.stamp()) && self.fits(from, message))
    }

    // Whether the process is a tree neighbour. It is found in an ordered map.
    #[tactic(auto, using(crate::proofs::Taking::port_told))]
    fn is_port(&self, from: u32) -> bool
        ensures { result ≡ is_port self.now.hub from }
    {
        self.routes.place_of(from) < self.ports.len()
    }

    fn is_linked(&self, from: u32) -> bool
        ensures { result ≡ is_linked self.now.hub from }
    {
        self.is_port(from) || is_one_of(from, self.to_agents.as_slice())
    }

    fn has_agent(&self, num: Num) -> bool
        ensures { result ≡ has_agent self.now.hub num }
    {
        (num.agent as usize) < self.to_agents.len()
    }

    fn has_var(&self, var: u32) -> bool
        ensures { result ≡ has_var self.now.hub var }
    {
        var < self.layout.var_count()
    }

    fn has_class(&self, class: u32) -> bool
        ensures { result ≡ has_class self.now.hub class }
    {
        (class as usize) < self.layout.classes.len()
    }

    fn is_away(&self, var: u32) -> bool
        ensures { result ≡ (has_var self.now.hub var && not (is_here (way_of var self.now.clp))) }
    {
        self.has_var(var) && self.routes.towards(var) != Way::Here
    }

    fn has_query(&self, query: &Query) -> bool
        ensures { result ≡ has_query self.now.hub query.now }
    {
        match query {
            Query::One { var } => self.has_var(*var),
            Query::Class { class, .. } => self.has_class(*class),
        }
    }

    fn have_agents_puts(&self, rows: &[PutRow]) -> bool
        ensures { result ≡ list_all (λ (p : ThePut). has_agent self.now.hub p.num) rows.now }
    {
        rows.iter().all(|row| self.has_agent(row.num))
    }

    fn have_agents_cuts(&self, rows: &[CutRow]) -> bool
        ensures { result ≡ list_all (λ (c : TheCut). has_agent self.now.hub c.num) rows.now }
    {
        rows.iter().all(|row| self.has_agent(row.num))
    }

    fn have_agents_reads(&self, rows: &[ReadRow]) -> bool
        ensures { result ≡ list_all (λ (q : TheRead). has_agent self.now.hub q.num) rows.now }
    {
        rows.iter().all(|row| self.has_agent(row.num))
    }

    // Whether the agents of all rows exist.
    fn has_agents(&self, parts: &Parts) -> bool
        ensures { result ≡ has_agents self.now.hub parts.now }
    {
        self.have_agents_puts(parts.puts.as_slice())
            && (self.have_agents_cuts(parts.cuts.as_slice())
                && self.have_agents_reads(parts.reads.as_slice()))
    }

    // Whether all that the message names is there, and it may come from that process.
    fn fits(&self, from: u32, message: &Message) -> bool
        ensures { result ≡ fits self.now.hub self.now.clp from message.now }
    {
        match message {
            Message::Wake { .. } => false,
            Message::Ask { num, query, .. } => self.has_agent(*num) && self.has_query(query),
            Message::Put { num, var, .. } => self.has_agent(*num) && self.has_var(*var),
            Message::Cut { num, var, .. } => self.has_agent(*num) && self.has_var(*var),
            Message::Give { row } => self.has_agent(row.num) && self.has_var(row.var),
            Message::Finish { num, .. } => self.has_agent(*num),
            Message::Grow { class, window, .. } => {
                self.has_class(*class) && (self.is_port(from) && !window.is_inverted())
            }
            Message::Move { var, parts, .. } => {
                self.is_away(*var)
                    && (self.is_port(from) && (self.has_agents(parts) && has_low_turns(parts)))
            }
        }
    }
}

// Whether each turn is a number of 32 bits.
fn has_low_turns(parts: &Parts) -> bool
    ensures { result ≡ has_low_turns parts.now }
{
    are_low(parts.reads.as_slice())
}

fn are_low(rows: &[ReadRow]) -> bool
    ensures { result ≡ list_all (λ (q : TheRead). nat_lt q.turn (2 ^ 32)) rows.now }
{
    rows.iter().all(|row| row.turn < LOW)
}

fn is_one_of(process: u32, processes: &[u32]) -> bool
    ensures { result ≡ has process processes.now }
{
    for p in processes {
        if *p == process {
            return true;
        }
    }
    false
}
