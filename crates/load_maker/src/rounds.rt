//! The rounds of a load.
ghost use Rattle.std.specs.Prelude.{◌≡◌, ◌++◌, ◌≤◌, IfOk, OnOk};
ghost use Rattle.load_maker.specs.Generated.{after_move, after_round, again, conn_before, dropped_or_returned, gold_given, most_moves, most_rounds, moved, next_state, reopened, returned_in, round_from, rounds_from, thing_moved, things_moved, token_before};

use crate::draws::draw;
use crate::names::{ROOM, return_id, return_target, session_id, token_id};
use crate::parts::{PLAYERS, THINGS, acknowledged, commanded, whole};
use hub_model::{Events, HubEvent};
use lists::Memory;
use schema_model::{ConnNum, Id, RefNum};
use state_model::Command;
use std::alloc::Global;

// So many things get a number in a round.
const MOVES: u32 = 20;

// A thing gets a number.
fn push_move(events: &mut Events, state: &mut u64) -> Result<(), Memory>
    ensures events { OnOk result (events.new ≡ events.old ++ thing_moved state.old) }
    ensures state { state.new ≡ after_move state.old }
{
    let thing = RefNum(27 + draw(state, THINGS));
    let field = draw(state, 2) as u8;
    let number = draw(state, 1_000);
    events.push(commanded(Command::Put(thing, field, whole(number))))
}

// So many things get a number.
fn push_some(events: &mut Events, state: &mut u64, count: u32) -> Result<(), Memory>
    ensures events { OnOk result (events.new ≡ events.old ++ moved count state.old) }
    ensures state { OnOk result (state.new ≡ again after_move count state.old) }
{
    for _ in 0..count {
        push_move(events, state)?;
    }
    Ok(())
}

fn push_moves(events: &mut Events, state: &mut u64) -> Result<(), Memory>
    ensures events { OnOk result (events.new ≡ events.old ++ things_moved state.old) }
    ensures state { OnOk result (state.new ≡ again after_move most_moves state.old) }
{
    push_some(events, state, MOVES)
}

// A player gets gold.
fn push_gold(events: &mut Events, state: &mut u64) -> Result<(), Memory>
    ensures events { OnOk result (events.new ≡ events.old ++ gold_given state.old) }
    ensures state { state.new ≡ next_state (next_state state.old) }
{
    let player = RefNum(3 * (draw(state, PLAYERS) + 1));
    let gold = draw(state, 100);
    events.push(commanded(Command::Put(player, 1, whole(gold))))
}

// The first client's connection before a drop in a round.
fn conn_before(round: u32) -> u64
    requires { round ≤ most_rounds }
    ensures { result ≡ conn_before round }
{
    if round < 200 {
        101
    } else {
        u64::from(round + 50)
    }
}

// The first client's token before a return in a round.
fn token_before(round: u32) -> Id
    ensures { result ≡ token_before round }
{
    if round < 200 {
        token_id(1)
    } else {
        return_id(round - 200)
    }
}

// The first client opens its seat again.
fn reopened(alloc: Global, round: u32) -> Result<HubEvent, Memory>
    requires { round ≤ most_rounds }
    ensures { IfOk result (λ e. e ≡ reopened round) }
{
    Ok(HubEvent::Opening {
        conn: ConnNum(u64::from(200 + round)),
        target: return_target(alloc, &session_id(1), &token_before(round))?,
        fresh: return_id(round),
    })
}

// The first client returns.
fn push_return(alloc: Global, events: &mut Events, round: u32) -> Result<(), Memory>
    requires { round ≤ most_rounds }
    ensures { OnOk result (events.new ≡ events.old ++ returned_in round) }
{
    events.push(reopened(alloc, round)?)?;
    events.push(acknowledged(alloc, u64::from(200 + round))?)
}

// The first client drops or returns, in some rounds.
fn push_break(alloc: Global, events: &mut Events, round: u32) -> Result<(), Memory>
    requires { round ≤ most_rounds }
    ensures { OnOk result (events.new ≡ events.old ++ dropped_or_returned round) }
{
    match round % 200 {
        100 => events.push(HubEvent::Lost {
            conn: ConnNum(conn_before(round)),
        }),
        150 => push_return(alloc, events, round),
        _ => Ok(()),
    }
}

// A round.
fn push_round(alloc: Global, events: &mut Events, round: u32, state: &mut u64) -> Result<(), Memory>
    requires { round ≤ most_rounds }
    ensures events { OnOk result (events.new ≡ events.old ++ round_from round state.old) }
    ensures state { OnOk result (state.new ≡ after_round state.old) }
{
    events.push(HubEvent::At(50 * u64::from(round)))?;
    push_moves(events, state)?;
    push_gold(events, state)?;
    push_break(alloc, events, round)?;
    events.push(HubEvent::Tick { room: ROOM })
}

/// So many rounds, from 1 on.
pub fn push_rounds(alloc: Global, events: &mut Events, seed: u64, rounds: u32) -> Result<(), Memory>
    requires { rounds ≤ most_rounds }
    ensures { OnOk result (events.new ≡ events.old ++ rounds_from seed rounds) }
{
    let mut state = seed;
    for n in 0..rounds {
        push_round(alloc, events, n + 1, &mut state)?;
    }
    Ok(())
}
