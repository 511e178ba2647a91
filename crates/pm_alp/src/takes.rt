// What an agent does with each kind of message.
ghost use Rattle.std.specs.Prelude.{◌≡◌, ◌+◌, ◌<◌, ◌^◌, true, OnOk};
ghost use Rattle.pm_base.specs.Layouts.{IsLayout};
ghost use Rattle.pm_alp.specs.Agents.{agent_after, on_finish, on_give, on_wake, with_hit};
ghost use Rattle.pm_alp.specs.States.{HasMoved, IsReady, IsThere, actor_of, agent_of};
ghost use Rattle.pm_saved.specs.Senses.{add_kept};
ghost use Rattle.pm_saved.specs.Spots.{AtSpot, find};
ghost use Rattle.pm_saved.specs.Steps.{HasGrown};

use crate::parts::AlpParts;
use crate::state::{State, forget, go_on, resume};
use pm_base::{GiveRow, List, Memory, Num, Query};
use pm_message::Message;
use pm_saved::{KeptHit, Spot};
use std::alloc::Global;

// Begins a step, where the Wake is the awaited one.
#[tactic(auto, using(crate::proofs::Going::stayed))]
pub fn on_wake(
    alloc: Global,
    state: &mut State,
    parts: &AlpParts<'_>,
    num: Num,
    out: &mut List<Message>,
) -> Result<(), Memory>
    requires layout { IsLayout parts.now.layout.now }
    requires horizon { parts.now.horizon < 2 ^ 63 }
    requires ready { IsReady state.old }
    requires room { state.old.seq + 2 ^ 32 + 1 < 2 ^ 64 }
    ensures moved { OnOk result (HasMoved (2 ^ 32 + 1)
        (on_wake (actor_of parts.now) (agent_of state.old) num state.old.awaited) state.old state.new out.old out.new) }
    ensures grown { HasGrown out.old out.new }
{
    match state.awaited {
        Some(wake) => if num == wake.num {
            state.told.clear();
            state.saved.begin(alloc, wake.stamp)?;
            go_on(alloc, state, parts, out)
        } else {
            Ok(())
        },
        None => Ok(()),
    }
}

// A hit with a new turn, for this complete sense.
fn give_again(
    alloc: Global,
    state: &mut State,
    parts: &AlpParts<'_>,
    at: Spot,
    hit: KeptHit,
    out: &mut List<Message>,
) -> Result<(), Memory>
    requires layout { IsLayout parts.now.layout.now }
    requires horizon { parts.now.horizon < 2 ^ 63 }
    requires ready { IsReady state.old }
    requires there { IsThere state.old.saved.steps at }
    requires room { state.old.seq + 2 ^ 32 + 1 < 2 ^ 64 }
    ensures moved { OnOk result (AtSpot state.old.saved.steps at (λ s. s.sense.complete ≡ true → HasMoved (2 ^ 32 + 1)
        (with_hit (actor_of parts.now) (agent_of state.old) s (record s.sense { hits = add_kept hit s.sense.hits }))
        state.old state.new out.old out.new)) }
    ensures grown { HasGrown out.old out.new }
{
    if !state.saved.changes(at, hit) {
        return state.saved.keep(at, hit.var, hit.turn, hit.hit);
    }
    forget(alloc, &state.saved, at, &mut state.told);
    state.saved.keep(at, hit.var, hit.turn, hit.hit)?;
    state.saved.withdrawn(at, out)?;
    resume(alloc, state, parts, at, out)
}

// A hit with a new turn, for this sense.
fn give_at(
    alloc: Global,
    state: &mut State,
    parts: &AlpParts<'_>,
    at: Spot,
    hit: KeptHit,
    out: &mut List<Message>,
) -> Result<(), Memory>
    requires layout { IsLayout parts.now.layout.now }
    requires horizon { parts.now.horizon < 2 ^ 63 }
    requires ready { IsReady state.old }
    requires there { IsThere state.old.saved.steps at }
    requires room { state.old.seq + 2 ^ 32 + 1 < 2 ^ 64 }
    ensures moved { OnOk result (AtSpot state.old.saved.steps at (λ s. HasMoved (2 ^ 32 + 1)
        (with_hit (actor_of parts.now) (agent_of state.old) s (record s.sense { hits = add_kept hit s.sense.hits }))
        state.old state.new out.old out.new)) }
    ensures grown { HasGrown out.old out.new }
{
    if state.saved.complete(at) {
        return give_again(alloc, state, parts, at, hit, out);
    }
    forget(alloc, &state.saved, at, &mut state.told);
    state.saved.keep(at, hit.var, hit.turn, hit.hit)?;
    match state.saved.query(at) {
        Query::One { .. } => resume(alloc, state, parts, at, out),
        Query::Class { .. } => Ok(()),
    }
}

// A hit, where a kept sense has the number and no hit of its variable with that turn or a later one.
#[tactic(auto, using(crate::proofs::Going::stayed))]
pub fn on_give(
    alloc: Global,
    state: &mut State,
    parts: &AlpParts<'_>,
    row: &GiveRow,
    out: &mut List<Message>,
) -> Result<(), Memory>
    requires layout { IsLayout parts.now.layout.now }
    requires horizon { parts.now.horizon < 2 ^ 63 }
    requires ready { IsReady state.old }
    requires room { state.old.seq + 2 ^ 32 + 1 < 2 ^ 64 }
    ensures moved { OnOk result (HasMoved (2 ^ 32 + 1)
        (on_give (actor_of parts.now) (agent_of state.old) row.now (find row.now.num state.old.saved.steps))
        state.old state.new out.old out.new) }
    ensures grown { HasGrown out.old out.new }
{
    let GiveRow {
        num,
        var,
        turn,
        hit,
        ..
    } = *row;
    match state.saved.find(num) {
        Some(at) => if turn <= state.saved.turn_of(at, var) {
            Ok(())
        } else {
            give_at(alloc, state, parts, at, KeptHit { var, turn, hit }, out)
        },
        None => Ok(()),
    }
}

// The end of the hits of a query of a class, where it isn't complete already.
#[tactic(auto, using(crate::proofs::Going::stayed))]
pub fn on_finish(
    alloc: Global,
    state: &mut State,
    parts: &AlpParts<'_>,
    num: Num,
    out: &mut List<Message>,
) -> Result<(), Memory>
    requires layout { IsLayout parts.now.layout.now }
    requires horizon { parts.now.horizon < 2 ^ 63 }
    requires ready { IsReady state.old }
    requires room { state.old.seq + 2 ^ 32 + 1 < 2 ^ 64 }
    ensures moved { OnOk result (HasMoved (2 ^ 32 + 1)
        (on_finish (actor_of parts.now) (agent_of state.old) (find num state.old.saved.steps))
        state.old state.new out.old out.new) }
    ensures grown { HasGrown out.old out.new }
{
    let Some(at) = state.saved.find(num) else {
        return Ok(());
    };
    if state.saved.complete(at) {
        return Ok(());
    }
    match state.saved.query(at) {
        Query::One { .. } => Ok(()),
        Query::Class { .. } => resume(alloc, state, parts, at, out),
    }
}

// Takes a message. Of the other kinds none is for an agent.
#[tactic(auto, using(crate::proofs::Going::stayed))]
pub fn take(
    alloc: Global,
    state: &mut State,
    parts: &AlpParts<'_>,
    message: &Message,
    out: &mut List<Message>,
) -> Result<(), Memory>
    requires layout { IsLayout parts.now.layout.now }
    requires horizon { parts.now.horizon < 2 ^ 63 }
    requires ready { IsReady state.old }
    requires room { state.old.seq + 2 ^ 32 + 1 < 2 ^ 64 }
    ensures moved { OnOk result (HasMoved (2 ^ 32 + 1)
        (agent_after (actor_of parts.now) (agent_of state.old) message.now) state.old state.new out.old out.new) }
    ensures grown { HasGrown out.old out.new }
{
    match message {
        Message::Wake { num, .. } => on_wake(alloc, state, parts, *num, out),
        Message::Give { row } => on_give(alloc, state, parts, row, out),
        Message::Finish { num, .. } => on_finish(alloc, state, parts, *num, out),
        _ => Ok(()),
    }
}
