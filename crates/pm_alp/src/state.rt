// What an agent does with its kept steps: it goes on in the last one, or goes back to a sense.
ghost use Rattle.std.specs.Prelude.{◌≡◌, ◌+◌, ◌-◌, ◌<◌, ◌≤◌, ◌==◌, ◌^◌, ◌++◌, ◌∷◌, [], nat_le, true, None, IfOk, OnOk};
ghost use Rattle.std.specs.Prelude.{length, take};
ghost use Rattle.std.specs.Option.{option_to_list};
ghost use Rattle.pm_base.specs.Layouts.{IsLayout};
ghost use Rattle.pm_alp.specs.Agents.{act_sends, go_on, next_seq, nums_of, puts_of, wake_of};
ghost use Rattle.pm_model.specs.Runs.{later};
ghost use Rattle.pm_step.specs.Steps.{IsRising};
ghost use Rattle.pm_saved.specs.Spots.{AtSpot};
ghost use Rattle.pm_alp.specs.States.{HasMoved, IsReady, IsThere, actor_of, agent_of, asked, awaited_at, told_before};
ghost use Rattle.pm_saved.specs.Senses.{answers as answers_of};
ghost use Rattle.pm_saved.specs.Steps.{AtLast, HasGrown};

use crate::agent::Awaited;
use crate::parts::AlpParts;
use pm_base::{Act, Hit, List, Memory, Num, Query, Stamp, Write};
use pm_message::Message;
use pm_saved::{Saved, Spot};
use pm_step::Next;
use pm_step::steps::next;
use std::alloc::Global;
use std::mem;

// An agent between two messages: what it keeps, the answers of the first senses of its last step, for the rule to look
// at when the step goes on, the call that it awaits, and how many numbers it has used.
#[derive(Debug, Drop)]
pub struct State {
    pub saved: Saved,
    pub told: List<List<Hit>>,
    pub awaited: Option<Awaited>,
    pub seq: u64,
}

// The variable of a write, which is below 2 ^ 32.
fn var_of(write: Write) -> u32
    ensures var { result ≡ write.var }
    ensures range { result < 2 ^ 32 }
{
    let Write { var, change: _ } = write;
    var
}

// How many writes a step made: no more than there are numbers of variables.
fn count(writes: &[Write]) -> u64
    requires { IsRising writes.now }
    ensures count { result ≡ length writes.now }
    ensures few { result ≤ 2 ^ 32 }
{
    let Some(last) = writes.last() else {
        return 0;
    };
    let _greatest = var_of(*last);
    writes.len() as u64
}

// Sends a put of a write under this number.
fn send_put(num: Num, stamp: Stamp, write: Write, out: &mut List<Message>) -> Result<(), Memory>
    ensures ok { OnOk result (out.new ≡ out.old ++ puts_of num.agent stamp num.seq (write ∷ [])) }
    ensures grown { HasGrown out.old out.new }
{
    let Write { var, change } = write;
    out.push(Message::Put {
        num,
        stamp,
        var,
        change,
    })
}

// Sends a put for each write, numbered from this number on, and answers the numbers.
fn send_puts(
    alloc: Global,
    first: Num,
    stamp: Stamp,
    writes: &[Write],
    out: &mut List<Message>,
) -> Result<List<Num>, Memory>
    requires { first.seq + length writes.now < 2 ^ 64 }
    ensures nums { IfOk result (λ l. l ≡ nums_of first.agent first.seq writes.now) }
    ensures sent { OnOk result (out.new ≡ out.old ++ puts_of first.agent stamp first.seq writes.now) }
    ensures grown { HasGrown out.old out.new }
{
    let mut nums = List::new(alloc);
    let mut num = first;
    for write in writes {
        send_put(num, stamp, *write, out)?;
        nums.push(num)?;
        num.seq += 1;
    }
    Ok(nums)
}

// The Wake at this time, under the agent's number of this seq, where the time is within the horizon.
pub fn wake_at(agent: u32, horizon: u64, seq: u64, time: u64) -> Option<Awaited>
    ensures { result ≡ awaited_at agent horizon seq time }
{
    if time > horizon {
        return None;
    }
    let num = Num { agent, seq };
    let stamp = Stamp { time, agent };
    Some(Awaited { num, stamp })
}

// The message of an awaited Wake.
pub fn wake_message(awaited: Option<Awaited>) -> Option<Message>
    ensures { option_to_list result ≡ wake_of awaited }
{
    match awaited {
        Some(Awaited { num, stamp }) => Some(Message::Wake { num, stamp }),
        None => None,
    }
}

// Awaits the Wake of the agent's next step, and sends it, where the step is within the horizon.
fn send_wake(
    state: &mut State,
    parts: &AlpParts<'_>,
    time: u64,
    out: &mut List<Message>,
) -> Result<(), Memory>
    requires { state.old.seq + 1 < 2 ^ 64 }
    ensures kept { state.new.saved ≡ state.old.saved }
    ensures told { state.new.told ≡ state.old.told }
    ensures wake { state.new.awaited ≡ awaited_at parts.now.agent parts.now.horizon state.old.seq time }
    ensures seq { state.new.seq ≡ next_seq (nat_le time parts.now.horizon) state.old.seq }
    ensures sent { OnOk result (out.new ≡ out.old ++ wake_of state.new.awaited) }
    ensures grown { HasGrown out.old out.new }
{
    state.awaited = wake_at(parts.agent, parts.horizon, state.seq, time);
    match wake_message(state.awaited) {
        Some(wake) => {
            state.seq += 1;
            out.push(wake)
        }
        None => Ok(()),
    }
}

// The last step asks.
fn ask(
    alloc: Global,
    state: &mut State,
    agent: u32,
    stamp: Stamp,
    query: Query,
    out: &mut List<Message>,
) -> Result<(), Memory>
    requires ready { IsReady state.old }
    requires room { state.old.seq + 1 < 2 ^ 64 }
    ensures moved { OnOk result (AtLast state.old.saved.steps (λ front last. HasMoved 1
        (asked agent stamp query front last (agent_of state.old)) state.old state.new out.old out.new)) }
    ensures grown { HasGrown out.old out.new }
{
    let num = Num {
        agent,
        seq: state.seq,
    };
    state.awaited = None;
    state.seq += 1;
    state.saved.ask(alloc, num, query)?;
    out.push(Message::Ask { num, stamp, query })
}

// The last step acts, with the answers of all its senses.
fn act(
    alloc: Global,
    state: &mut State,
    parts: &AlpParts<'_>,
    act: Act,
    out: &mut List<Message>,
) -> Result<(), Memory>
    requires ready { IsReady state.old }
    requires horizon { parts.now.horizon < 2 ^ 63 }
    requires rising { IsRising act.writes }
    requires room { state.old.seq + 2 ^ 32 + 1 < 2 ^ 64 }
    ensures moved { OnOk result (AtLast state.old.saved.steps (λ front last. state.old.told ≡ answers_of last.senses →
        HasMoved (2 ^ 32 + 1) (act_sends parts.now.agent state.old.saved.base front last.stamp last.senses
        state.old.seq act (nat_le (later last.stamp.time act.wait) parts.now.horizon)) state.old state.new
        out.old out.new)) }
    ensures grown { HasGrown out.old out.new }
{
    let Some(stamp) = state.saved.last() else {
        return Ok(());
    };
    let time = stamp.time.saturating_add(act.wait);
    let first = Num {
        agent: parts.agent,
        seq: state.seq,
    };
    let writes = act.writes.as_slice();
    let count = count(writes);
    let nums = send_puts(alloc, first, stamp, writes, out)?;
    state.seq += count;
    let answers = mem::replace(&mut state.told, List::new(alloc));
    state.saved.act(nums, answers, act);
    send_wake(state, parts, time, out)
}

// Goes on in the last step: the rule says what comes next.
pub fn go_on(
    alloc: Global,
    state: &mut State,
    parts: &AlpParts<'_>,
    out: &mut List<Message>,
) -> Result<(), Memory>
    requires layout { IsLayout parts.now.layout.now }
    requires horizon { parts.now.horizon < 2 ^ 63 }
    requires ready { IsReady state.old }
    requires room { state.old.seq + 2 ^ 32 + 1 < 2 ^ 64 }
    ensures moved { OnOk result (AtLast state.old.saved.steps (λ front last. last.act ≡ None →
        HasMoved (2 ^ 32 + 1) (go_on (actor_of parts.now) state.old.saved.base front last.stamp last.senses
        state.old.seq) state.old state.new out.old out.new)) }
    ensures grown { HasGrown out.old out.new }
{
    let Some(stamp) = state.saved.last() else {
        return Ok(());
    };
    state.saved.answer_on(alloc, &mut state.told)?;
    let then = next(
        alloc,
        parts.program,
        parts.layout,
        stamp,
        state.saved.regs(),
        &state.told,
    )?;
    match then {
        Next::Ask(query) => ask(alloc, state, parts.agent, stamp, query, out),
        Next::Act(done) => act(alloc, state, parts, done, out),
    }
}

// Of the answers of the last step's first senses those before this place stay, where it is in the last step; else none.
pub fn forget(alloc: Global, saved: &Saved, at: Spot, told: &mut List<List<Hit>>)
    ensures { told.new ≡ told_before (at.step == length saved.now.steps - 1) at.sense told.old }
{
    let was = mem::replace(told, List::new(alloc));
    if at.step == saved.kept().saturating_sub(1) {
        *told = first_of(was, at.sense);
    }
}

// The first answers, so many of them.
fn first_of(told: List<List<Hit>>, count: usize) -> List<List<Hit>>
    ensures { result ≡ take count told }
{
    let mut answers = told.into_vec();
    answers.truncate(count);
    List::from_vec(answers)
}

// Goes on from this sense, which becomes complete: all that came after it is dropped.
pub fn resume(
    alloc: Global,
    state: &mut State,
    parts: &AlpParts<'_>,
    at: Spot,
    out: &mut List<Message>,
) -> Result<(), Memory>
    requires layout { IsLayout parts.now.layout.now }
    requires horizon { parts.now.horizon < 2 ^ 63 }
    requires ready { IsReady state.old }
    requires there { IsThere state.old.saved.steps at }
    requires room { state.old.seq + 2 ^ 32 + 1 < 2 ^ 64 }
    ensures moved { OnOk result (AtSpot state.old.saved.steps at (λ s. HasMoved (2 ^ 32 + 1)
        (go_on (actor_of parts.now) state.old.saved.base s.front s.here.stamp
        (s.before ++ record s.sense { complete = true } ∷ []) state.old.seq) state.old state.new out.old out.new)) }
    ensures grown { HasGrown out.old out.new }
{
    forget(alloc, &state.saved, at, &mut state.told);
    state.saved.finish(at);
    state.saved.cut_back(at);
    go_on(alloc, state, parts, out)
}
