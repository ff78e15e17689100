//! What stands before the rounds: the seats of the players, the players, and the things.
ghost use Rattle.std.specs.Prelude.{◌≡◌, ◌+◌, ◌++◌, ◌≤◌, ◌<◌, ◌^◌, negsuc, IfOk, OnOk};
ghost use Rattle.std.specs.Fmt.{decimal};
ghost use Rattle.hub_model.specs.declared.event.HubEvent.TheVariants as event;
ghost use Rattle.room_model.specs.declared.event.Act.TheVariants as act;
ghost use Rattle.load_maker.specs.Generated.{acknowledged, asked, card_made, commanded, game_made, hand_made, map_made, most_players, most_things, opened, player_made, player_row, room_id, root_made, row_made, seat_of, session_id, thing_made, up_to, whole};

use crate::names::{ROOM, join_target, opening_target, session_id, token_id};
use hub_model::{Events, HubEvent};
use lists::{Memory, Text};
use room_model::Act;
use schema_model::{Bytes, ConnNum, Home, Pair, RefNum, Tag, TypeNum, Value, id_text};
use state_model::Command;
use std::alloc::Global;

/// So many clients play.
pub const PLAYERS: u32 = 8;

/// So many things there are.
pub const THINGS: u32 = 200;

// The frame with which a client acknowledges.
const ACKNOWLEDGEMENT: [u8; 1] = [10];

/// The event of a command of the room.
pub fn commanded(command: Command) -> HubEvent
    ensures { result ≡ commanded command }
{
    HubEvent::Act {
        room: ROOM,
        act: Act::State(command),
    }
}

/// A number as a value.
pub fn whole(number: u32) -> Value
    ensures { result ≡ whole number }
{
    Value::Whole(i128::from(number))
}

/// A client's acknowledgement.
pub fn acknowledged(alloc: Global, conn: u64) -> Result<HubEvent, Memory>
    ensures { IfOk result (λ e. e ≡ acknowledged conn) }
{
    Ok(HubEvent::Frame {
        conn: ConnNum(conn),
        bytes: Bytes::from_slice(alloc, ACKNOWLEDGEMENT.as_slice())?,
    })
}

// A session as a text.
fn session_text(alloc: Global, client: u32) -> Result<Text, Memory>
    ensures { IfOk result (λ t. t ≡ session_id client) }
{
    let id = session_id(client);
    Text::from_text(alloc, id_text(&id))
}

// A client asks for a seat.
fn asked(alloc: Global, client: u32) -> Result<HubEvent, Memory>
    ensures { IfOk result (λ e. e ≡ asked client) }
{
    Ok(HubEvent::Ask {
        conn: ConnNum(u64::from(client)),
        target: join_target(alloc, "game")?,
        body: Bytes::from_slice(alloc, b"{}")?,
        room: ROOM,
        session: session_id(client),
    })
}

// It opens its seat.
fn opened(alloc: Global, client: u32) -> Result<HubEvent, Memory>
    requires { client ≤ most_players }
    ensures { IfOk result (λ e. e ≡ opened client) }
{
    Ok(HubEvent::Opening {
        conn: ConnNum(u64::from(100 + client)),
        target: opening_target(alloc, &session_id(client))?,
        fresh: token_id(client),
    })
}

// A client asks for a seat, opens it and acknowledges.
fn push_seat(alloc: Global, events: &mut Events, client: u32) -> Result<(), Memory>
    requires { client ≤ most_players }
    ensures { OnOk result (events.new ≡ events.old ++ seat_of client) }
{
    events.push(asked(alloc, client)?)?;
    events.push(opened(alloc, client)?)?;
    events.push(acknowledged(alloc, u64::from(100 + client))?)
}

fn push_seats(alloc: Global, events: &mut Events) -> Result<(), Memory>
    ensures { OnOk result (events.new ≡ events.old ++ up_to (λ n. seat_of (n + 1)) most_players) }
{
    for n in 0..PLAYERS {
        push_seat(alloc, events, n + 1)?;
    }
    Ok(())
}

// The root gets a map, whose row has this number.
fn push_map(events: &mut Events, field: u8, map: u32) -> Result<(), Memory>
    ensures { OnOk result (events.new ≡ events.old ++ map_made field map) }
{
    events.push(commanded(Command::MakeFor(Home {
        class: TypeNum(0),
        field,
    })))?;
    let link = Value::Link(RefNum(map));
    events.push(commanded(Command::Put(RefNum(0), field, link)))
}

// The root gets its two maps.
fn push_root(events: &mut Events) -> Result<(), Memory>
    ensures { OnOk result (events.new ≡ events.old ++ root_made) }
{
    push_map(events, 0, 1)?;
    push_map(events, 1, 2)
}

// The row of a player.
fn player_row(client: u32) -> RefNum
    requires { client ≤ most_players }
    ensures { result ≡ player_row client }
{
    RefNum(3 * client)
}

// The row behind another one.
fn behind(row: RefNum, by: u32) -> RefNum
    requires { row + by < 2 ^ 32 }
    ensures { result ≡ row + by }
{
    RefNum(row.0 + by)
}

// The row of a player, with its name and without gold, in the map.
fn push_row(alloc: Global, events: &mut Events, client: u32) -> Result<(), Memory>
    requires { client ≤ most_players }
    ensures { OnOk result (events.new ≡ events.old ++ row_made client) }
{
    let row = player_row(client);
    events.push(commanded(Command::Make(TypeNum(1))))?;
    let name = Value::Str(session_text(alloc, client)?);
    events.push(commanded(Command::Put(row, 0, name)))?;
    events.push(commanded(Command::Put(row, 1, whole(0))))?;
    let key = session_text(alloc, client)?;
    events.push(commanded(Command::PutKey(RefNum(1), key, Value::Link(row))))
}

// Its hand.
fn push_hand(events: &mut Events, client: u32) -> Result<(), Memory>
    requires { client ≤ most_players }
    ensures { OnOk result (events.new ≡ events.old ++ hand_made client) }
{
    let row = player_row(client);
    events.push(commanded(Command::MakeFor(Home {
        class: TypeNum(1),
        field: 2,
    })))?;
    let hand = Value::Link(behind(row, 1));
    events.push(commanded(Command::Put(row, 2, hand)))
}

// A card in it, and the player in the client's view.
fn push_card(events: &mut Events, client: u32) -> Result<(), Memory>
    requires { client ≤ most_players }
    ensures { OnOk result (events.new ≡ events.old ++ card_made client) }
{
    let row = player_row(client);
    let card = behind(row, 2);
    events.push(commanded(Command::Make(TypeNum(2))))?;
    events.push(commanded(Command::Put(card, 0, whole(client))))?;
    events.push(commanded(Command::Push(behind(row, 1), Value::Link(card))))?;
    events.push(seen(client, row))
}

// A row comes into a client's view.
fn seen(client: u32, row: RefNum) -> HubEvent
    ensures { result ≡ event.Act room_id (act.ViewAdd (session_id client) (record { who = row; tag = negsuc 0 })) }
{
    HubEvent::Act {
        room: ROOM,
        act: Act::ViewAdd(
            session_id(client),
            Pair {
                who: row,
                tag: Tag(-1),
            },
        ),
    }
}

// A player of a client: its row, its hand with a card, and it in the client's view.
fn push_player(alloc: Global, events: &mut Events, client: u32) -> Result<(), Memory>
    requires { client ≤ most_players }
    ensures { OnOk result (events.new ≡ events.old ++ player_made client) }
{
    push_row(alloc, events, client)?;
    push_hand(events, client)?;
    push_card(events, client)
}

fn push_players(alloc: Global, events: &mut Events) -> Result<(), Memory>
    ensures { OnOk result (events.new ≡ events.old ++ up_to (λ n. player_made (n + 1)) most_players) }
{
    for n in 0..PLAYERS {
        push_player(alloc, events, n + 1)?;
    }
    Ok(())
}

// A number as a text.
fn number_text(alloc: Global, number: u32) -> Result<Text, Memory>
    ensures { IfOk result (λ t. t ≡ decimal number) }
{
    let text = format!(in alloc; "{number}")?;
    Ok(Text::from_string(text))
}

// A thing, at rest.
fn push_thing(alloc: Global, events: &mut Events, number: u32) -> Result<(), Memory>
    requires { number < most_things }
    ensures { OnOk result (events.new ≡ events.old ++ thing_made number) }
{
    let row = RefNum(27 + number);
    events.push(commanded(Command::Make(TypeNum(3))))?;
    events.push(commanded(Command::Put(row, 0, whole(0))))?;
    events.push(commanded(Command::Put(row, 1, whole(0))))?;
    let key = number_text(alloc, number)?;
    events.push(commanded(Command::PutKey(RefNum(2), key, Value::Link(row))))
}

fn push_things(alloc: Global, events: &mut Events) -> Result<(), Memory>
    ensures { OnOk result (events.new ≡ events.old ++ up_to thing_made most_things) }
{
    for number in 0..THINGS {
        push_thing(alloc, events, number)?;
    }
    Ok(())
}

/// All that stands before the rounds.
pub fn push_game(alloc: Global, events: &mut Events) -> Result<(), Memory>
    ensures { OnOk result (events.new ≡ events.old ++ game_made) }
{
    events.push(HubEvent::At(0))?;
    push_seats(alloc, events)?;
    push_root(events)?;
    push_players(alloc, events)?;
    push_things(alloc, events)
}
