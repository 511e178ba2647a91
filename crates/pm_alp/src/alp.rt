// An agent's process.
ghost use Rattle.std.specs.Prelude.{◌≡◌, ◌<◌, ◌^◌, ◌++◌, ◌+◌, false, true, None, is_err, length, map, OnOk, IfOk};
ghost use Rattle.std.specs.Option.{option_map, option_to_list};
ghost use Rattle.pm_base.specs.Layouts.{IsLayout};
ghost use Rattle.pm_base.specs.declared.program.RegRow.{RegRow as TheRegister};
ghost use Rattle.pm_alp.specs.Agents.{agent_committed, wake_of};
ghost use Rattle.pm_alp.specs.States.{fixed_of};
ghost use Rattle.pm_alp.specs.declared.agent.Awaited.{Awaited as TheAwaited};
ghost use Rattle.pm_alp.specs.Views.{delivered, first_process, gave_out, is_awaited, sent_by, with_agent};
ghost use Rattle.pm_saved.specs.Steps.{HasGrown, first_ready, hand_out};

use crate::parts::AlpParts;
use crate::state::{State, wake_at, wake_message};
use crate::takes::take;
use pm_base::{Entry, Line, List, Memory, Num, RegRow, Stamp};
use pm_message::Message;
use pm_saved::Saved;
use std::alloc::Global;
use std::marker::Model;

/// An agent's process. It runs ahead on what it was told, keeps each step until it is committed, and goes back where a
/// hit changes. Contracts see what stays of it, its agent, how many deliveries were made at it, and whether memory was
/// wanting in one of them.
#[derive(Debug, Drop)]
pub struct Alp<'a> {
    parts: AlpParts<'a>,
    state: State,
    made: u64,
    spoilt: bool,
}

impl<'a> Model for Alp<'a> {
    ghost use Rattle.pm_alp.specs.Views.{Process, process_of, IsSound};
    ghost use Rattle.std.specs.Coded.{codes};
    ghost use Rattle.pm_base.specs.contracts.program.Expr as expr;
    ghost use Rattle.pm_base.specs.contracts.program.Stmt as stmt;

    ghost Value = { Process };

    ghost coded = { Prim.hlevel (codes, expr.the_row.coded, stmt.the_row.coded) };

    ghost view = { process_of };

    ghost invariant = { IsSound };
}

// The registers before the first step.
fn first_regs(alloc: Global, rows: &[RegRow]) -> Result<List<i64>, Memory>
    ensures { IfOk result (λ l. l ≡ map (λ (r : TheRegister). r.start) rows.now) }
{
    let mut all = List::new(alloc);
    for row in rows {
        all.push(row.start)?;
    }
    Ok(all)
}

impl<'a> Alp<'a> {
    /// The process before its first step, and its first Wake: none exactly where the agent starts past the horizon.
    pub fn first(alloc: Global, parts: AlpParts<'a>) -> Result<(Alp<'a>, Option<Message>), Memory>
        requires layout { IsLayout parts.layout.now }
        requires horizon { parts.horizon < 2 ^ 63 }
        ensures process { IfOk result (λ r. r.0 ≡ first_process (fixed_of parts.entry) parts.entry.start) }
        ensures wake { IfOk result (λ r. option_to_list r.1 ≡ wake_of r.0.agent.awaited) }
    {
        let regs = first_regs(alloc, parts.program.regs.as_slice())?;
        let awaited = wake_at(parts.agent, parts.horizon, 0, parts.start);
        let seq = match awaited {
            Some(_) => 1,
            None => 0,
        };
        let state = State {
            saved: Saved::new(alloc, regs),
            told: List::new(alloc),
            awaited,
            seq,
        };
        let alp = Alp {
            parts,
            state,
            made: 0,
            spoilt: false,
        };
        Ok((alp, wake_message(awaited)))
    }

    /// Takes a message: a Wake of the agent itself, a hit of a variable, or the end of a query's hits; any other does
    /// nothing. What it sends is added to the end of a list that is lent: a Wake is for the agent itself, each other
    /// message for its home. After `Memory` the process is spoilt: some of its messages may then stand in the list, and
    /// every later delivery answers `Memory` and sends nothing.
    pub fn deliver(
        &mut self,
        alloc: Global,
        message: Message,
        out: &mut List<Message>,
    ) -> Result<(), Memory>
        requires { self.old.made < 20000000 }
        ensures process { OnOk result (self.new ≡ delivered message self.old) }
        ensures sent { OnOk result (out.new ≡ out.old ++ sent_by message self.old) }
        ensures fixed { self.new.fixed ≡ self.old.fixed }
        ensures spoils { self.new.spoilt ≡ is_err result }
        ensures spoilt { self.old.spoilt ≡ true → is_err result ≡ true }
        ensures stays { self.old.spoilt ≡ true → self.new ≡ self.old }
        ensures silent { self.old.spoilt ≡ true → out.new ≡ out.old }
        ensures counted { self.old.spoilt ≡ false → self.new.made ≡ self.old.made + 1 }
        ensures grown { HasGrown out.old out.new }
    {
        if self.spoilt {
            return Err(Memory);
        }
        self.spoilt = true;
        self.made += 1;
        take(alloc, &mut self.state, &self.parts, &message, out)?;
        self.spoilt = false;
        Ok(())
    }

    /// Gives out the first kept step's entry, where the step is below the line and has acted: its registers are then
    /// those before the kept steps. It takes no memory.
    pub fn commit(&mut self, line: Line) -> Option<Entry>
        ensures entry { result ≡ option_map (λ a. a.entry) (first_ready line self.old.agent.steps) }
        ensures process { self.new ≡
            with_agent (gave_out (first_ready line self.old.agent.steps) self.old.agent) self.old }
        ensures rest { agent_committed line self.new.agent ≡ agent_committed line self.old.agent }
        ensures entries { hand_out line self.old.agent.steps ≡
            option_to_list result ++ hand_out line self.new.agent.steps }
        ensures done { result ≡ None → self.new ≡ with_agent (agent_committed line self.old.agent) self.old }
    {
        self.state.saved.give_out(line)
    }

    /// How many calls of `commit` in a row would give an entry. It takes no memory.
    pub fn ready(&self, line: Line) -> usize
        ensures { result ≡ length (hand_out line self.now.agent.steps) }
    {
        self.state.saved.ready(line)
    }

    /// Whether the awaited Wake has this number. It takes no memory.
    pub fn awaits(&self, num: Num) -> bool
        ensures { result ≡ is_awaited num self.now.agent.awaited }
    {
        match self.state.awaited {
            Some(wake) => num == wake.num,
            None => false,
        }
    }

    /// The moment of the Wake that the agent awaits: none while it is in a step, and once it has retired. It takes no
    /// memory.
    pub fn next(&self) -> Option<Stamp>
        ensures { result ≡ option_map (λ (w : TheAwaited). w.stamp) self.now.agent.awaited }
    {
        match self.state.awaited {
            Some(wake) => Some(wake.stamp),
            None => None,
        }
    }

    /// How many deliveries were made at the process. It takes no memory.
    pub fn made(&self) -> u64
        ensures { result ≡ self.now.made }
    {
        self.made
    }

    /// How many steps are kept. It takes no memory.
    pub fn kept(&self) -> usize
        ensures { result ≡ length self.now.agent.steps }
    {
        self.state.saved.kept()
    }
}
