//! A message is heard.
ghost use Rattle.std.specs.Prelude.{◌≡◌, ◌+◌, ◌++◌, ◌<◌, ℕ, true, false, map, OnErr, OnOk};
ghost use Rattle.pm_alp.specs.Views.{delivered, sent_by};
ghost use Rattle.pm_clp.specs.Clps.{clp_after};
ghost use Rattle.pm_clp.specs.Takes.{takes};
ghost use Rattle.pm_core.specs.Mails.{receiver};
ghost use Rattle.pm_ends.specs.Ends.{tos};
ghost use Rattle.pm_sim.specs.Worlds.{clps_of, home};
ghost use Rattle.pm_sim.specs.Worlds.{process as place};
ghost use Rattle.pm_cell.specs.Cores.{receivers_of, takes_at};
ghost use Rattle.pm_cell.specs.Helds.{IsProcessOf, made_of, out_wire, state_of, view_of};
ghost use Rattle.pm_cell.specs.Turns.{Acted, HeardIt, StaysAt, is_ready, sent_all, told_all};

use crate::cell::Cell;
use pm_alp::Alp;
use pm_base::{List, Memory};
use pm_clp::Clp;
use pm_core::Process;
use pm_ends::{OutEnds, Post};
use pm_history::Heard;
use pm_message::Message;
use pm_plan::Plan;
use pm_queries::Sent;
use std::alloc::Global;

// Sends what a communication process sends, in order, with that clock.
fn send_all(outs: &mut OutEnds, clock: u64, sent: List<Sent>) -> Result<(), Memory>
    ensures sent { OnOk result (outs.new ≡ sent_all clock sent outs.old) }
    ensures wires { map out_wire outs.new ≡ map out_wire outs.old }
{
    for Sent { to, message } in sent.into_vec() {
        outs.send(to, Post { message, clock })?;
    }
    Ok(())
}

// The process for which an agent's message is: its own for a Wake, its home's for every other.
fn receiver(own: u32, home: u32, message: &Message) -> u32
    ensures { result ≡ receiver own home message.now }
{
    match message {
        Message::Wake { .. } => own,
        _ => home,
    }
}

// Sends what an agent's process sends, in order, with that clock.
fn tell_all(
    outs: &mut OutEnds,
    clock: u64,
    own: u32,
    home: u32,
    told: List<Message>,
) -> Result<(), Memory>
    ensures sent { OnOk result (outs.new ≡ told_all clock own home told outs.old) }
    ensures wires { map out_wire outs.new ≡ map out_wire outs.old }
{
    for message in told.into_vec() {
        let to = receiver(own, home, &message);
        outs.send(to, Post { message, clock })?;
    }
    Ok(())
}

// A communication process takes a message from there, and sends what it then sends with the message's new clock.
fn at_clp(
    alloc: Global,
    clp: &mut Clp,
    outs: &mut OutEnds,
    from: u32,
    post: Post,
) -> Result<(), Memory>
    requires { takes clp.old.hub clp.old.made clp.old.clp from post.message ≡ true }
    ensures state { OnOk result (clp.new.clp ≡ (clp_after clp.old.hub from post.message clp.old.clp).clp) }
    ensures hub { OnOk result (clp.new.hub ≡ clp.old.hub) }
    ensures made { OnOk result (clp.new.made ≡ clp.old.made + 1) }
    ensures well { OnOk result (clp.new.spoilt ≡ false) }
    ensures sent { OnOk result (outs.new ≡
        sent_all post.clock (clp_after clp.old.hub from post.message clp.old.clp).sent outs.old) }
    ensures wires { map out_wire outs.new ≡ map out_wire outs.old }
{
    let mut sent = List::new(alloc);
    let Post { message, clock } = post;
    clp.deliver(alloc, from, message, &mut sent)?;
    send_all(outs, clock, sent)
}

// An agent's process takes a message, and sends what it then sends with the message's new clock.
fn at_alp(
    alloc: Global,
    alp: &mut Alp<'_>,
    outs: &mut OutEnds,
    own: u32,
    home: u32,
    post: Post,
) -> Result<(), Memory>
    requires { alp.old.made < 20000000 }
    ensures process { OnOk result (alp.new ≡ delivered post.message alp.old) }
    ensures sent { OnOk result (outs.new ≡ told_all post.clock own home (sent_by post.message alp.old) outs.old) }
    ensures wires { map out_wire outs.new ≡ map out_wire outs.old }
{
    let mut told = List::new(alloc);
    let Post { message, clock } = post;
    alp.deliver(alloc, message, &mut told)?;
    tell_all(outs, clock, own, home, told)
}

// The number of the process at which the agent of that process is homed.
fn home_of(plan: &Plan, number: u32) -> u32
    ensures { (i : ℕ) → number ≡ clps_of plan.now + i → result ≡ home plan.now i }
{
    match plan
        .agents
        .get((number as usize).saturating_sub(plan.clps.len()))
    {
        Some(row) => row.home,
        None => 0,
    }
}

// The process of that number takes a message from there, and sends what it then sends with the message's new clock.
fn act(
    alloc: Global,
    plan: &Plan,
    number: u32,
    process: &mut Process<'_>,
    outs: &mut OutEnds,
    from: u32,
    post: Post,
) -> Result<(), Memory>
    requires process { IsProcessOf plan.now number process.old }
    requires takes { takes_at plan.now (place plan.now number) (made_of process.old)
        (state_of process.old) from post.message ≡ true }
    requires receivers { tos outs.old ≡ receivers_of plan.now number }
    ensures acted { OnOk result (Acted plan.now number from post process.old process.new outs.old outs.new) }
    ensures wires { map out_wire outs.new ≡ map out_wire outs.old }
{
    match process {
        Process::Clp(clp) => at_clp(alloc, clp, outs, from, post),
        Process::Alp(alp) => at_alp(alloc, alp, outs, number, home_of(plan, number), post),
    }
}

// How many messages that withdraw a write were heard, with this one. The number stays at its greatest.
fn withdrawn_with(count: u64, message: &Message) -> u64 {
    match message {
        Message::Cut { .. } => count.saturating_add(1),
        _ => count,
    }
}

impl<'a> Cell<'a> {
    // Hears an item from there: its process takes the message, the clock is raised, and the receipt goes to the story.
    // After `Memory` the cell is spoilt.
    pub(crate) fn hear(&mut self, alloc: Global, from: u32, post: Post) -> Result<(), Memory>
        requires sound { self.old.spoilt ≡ false }
        requires ready { is_ready (view_of self.old) from post ≡ true }
        ensures heard { OnOk result (HeardIt from post self.old self.new) }
        ensures stays { StaysAt self.old self.new }
        ensures spoils { OnErr result (self.new.spoilt ≡ true) }
        ensures story { OnErr result (self.new.story ≡ self.old.story) }
    {
        let Post { message, clock } = post;
        let clock = clock.max(self.clock) + 1;
        let withdrawn = withdrawn_with(self.withdrawn, &message);
        self.spoilt = true;
        let post = Post { message, clock };
        act(
            alloc,
            self.plan,
            self.number,
            &mut self.process,
            &mut self.outs,
            from,
            post,
        )?;
        self.story.hear(Heard { clock, from })?;
        self.clock = clock;
        self.withdrawn = withdrawn;
        self.spoilt = false;
        Ok(())
    }
}
