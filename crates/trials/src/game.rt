//! A room with its clients as a test knows them. The state frames that a client is sent are decoded, and after each tick
//! the rows that it has of them have to be those that it may see.
use lists::{Memory, Seq, Text};
use live_state::{ExpandFault, LiveState};
use patch_decoder::Decoder;
use plain_rows::permitted;
use room_core::{Act, Room, RoomDef, RoomEvent, RoomLike, RoomOut, RoomOuts, Stage};
use room_model::Texts;
use schema_model::{Bytes, Id, Pair, Schema};
use std::alloc::Global;
use std::process::Abort;
use std::sync::ledger::Ledger;
use std::test::Fail;
use steps::Steps;
use view_members::Members;

/// A client: its session, what it decoded, and the members that its view has to have.
#[derive(Drop)]
pub struct Client {
    id: Id,
    decoder: Decoder,
    members: Members,
}

/// A room with its clients.
#[derive(Drop)]
pub struct Game {
    pub room: Room,
    clients: Vec<Client>,
}

impl Game {
    /// A room of so many places.
    pub fn new(alloc: Global, schema: &Schema, max: u32) -> Result<Game, Fail> {
        let def = RoomDef {
            name: Text::from_text(alloc, "table")?,
            max,
            seat: 15_000,
            patch: 50,
            keep: 20_000,
            filter: one_text(alloc, "mode")?,
        };
        if !def.is_valid() {
            return Err(Fail::new("no room is made of it"));
        }
        let criteria = one_text(alloc, "duel")?;
        Ok(Game {
            room: Room::make(alloc, schema, &def, &criteria)?,
            clients: Vec::new(alloc),
        })
    }

    /// Gives the room an event.
    pub fn give<L: Ledger>(
        &mut self,
        rt: &impl Abort,
        alloc: Global,
        event: &RoomEvent,
        steps: &mut Steps<L>,
    ) -> Result<RoomOuts, Fail> {
        note(alloc, &self.room, &mut self.clients, event, steps)?;
        if !self.room.takes(event) {
            return Err(Fail::new("the room doesn't take it"));
        }
        let outs = self.room.step(event, steps)?;
        if matches!(event, RoomEvent::Tick) {
            look(rt, alloc, &self.room, &mut self.clients, &outs)?;
        }
        Ok(outs)
    }
}

fn one_text(alloc: Global, text: &str) -> Result<Texts, Memory> {
    let mut texts = Seq::new(alloc);
    texts.push(Text::from_text(alloc, text)?)?;
    Ok(texts)
}

// What an event makes of the clients, before the room takes it.
fn note<L: Ledger>(
    alloc: Global,
    room: &Room,
    clients: &mut Vec<Client>,
    event: &RoomEvent,
    steps: &mut Steps<L>,
) -> Result<(), Fail> {
    match event {
        RoomEvent::Reserve(session, _) => {
            // A life of the same session that has ended is no client any more.
            clients.retain(|client| client.id != *session);
            clients.push(new_client(alloc, room.state().schema(), *session)?)?
        }
        RoomEvent::Act(Act::ViewAdd(session, pair)) => {
            edit(room, clients, *session, pair, true, steps)?
        }
        RoomEvent::Act(Act::ViewDel(session, pair)) => {
            edit(room, clients, *session, pair, false, steps)?
        }
        _ => {}
    }
    Ok(())
}

fn new_client(alloc: Global, schema: &Schema, id: Id) -> Result<Client, Memory> {
    Ok(Client {
        id,
        decoder: Decoder::new(alloc, schema.copy()?)?,
        members: Members::new(alloc)?,
    })
}

// A view edit, of a session that has a connection.
fn edit<L: Ledger>(
    room: &Room,
    clients: &mut Vec<Client>,
    session: Id,
    pair: &Pair,
    adds: bool,
    steps: &mut Steps<L>,
) -> Result<(), Fail> {
    for client in clients.iter_mut() {
        if client.id == session && room.stage_of(session) != Some(Stage::Reserved) {
            follow(room.state(), &mut client.members, pair, adds, steps)?;
        }
    }
    Ok(())
}

// What a view edit makes of members: of a row that isn't there nothing.
fn follow<L: Ledger>(
    live: &LiveState,
    members: &mut Members,
    pair: &Pair,
    adds: bool,
    steps: &mut Steps<L>,
) -> Result<(), Fail> {
    match live.expand(pair.who, pair.tag, steps) {
        Ok(pairs) if adds => members.add_all(pairs.as_slice())?,
        Ok(pairs) => members.remove_all(pairs.as_slice()),
        Err(ExpandFault::NoRef) => {}
        Err(ExpandFault::Memory) => return Err(Fail::new("out of memory")),
    }
    Ok(())
}

// Ends a tick for members.
fn end_tick(live: &LiveState, members: &mut Members) {
    for who in live.table().swept() {
        members.forget_instance(*who);
    }
    members.end_tick();
}

// Looks at what each client that is sent the state has of it at a tick.
fn look(
    rt: &impl Abort,
    alloc: Global,
    room: &Room,
    clients: &mut Vec<Client>,
    outs: &RoomOuts,
) -> Result<(), Fail> {
    for client in clients.iter_mut() {
        end_tick(room.state(), &mut client.members);
        if room.stage_of(client.id) == Some(Stage::Live) {
            decode(client, outs)?;
            check_view(rt, alloc, room.state(), client)?;
        }
    }
    Ok(())
}

// What a client is sent tells its decoder.
fn decode(client: &mut Client, outs: &RoomOuts) -> Result<(), Fail> {
    for out in outs.as_slice() {
        match out {
            RoomOut::Send(to, frame) if *to == client.id => take(&mut client.decoder, frame)?,
            _ => {}
        }
    }
    Ok(())
}

fn take(decoder: &mut Decoder, frame: &Bytes) -> Result<(), Fail> {
    match frame.as_slice().split_first() {
        Some((14, state)) => Ok(decoder.full(state)?),
        Some((15, state)) => Ok(decoder.patch(state)?),
        Some((13 | 17, _)) => Ok(()),
        _ => Err(Fail::new("another frame")),
    }
}

// What a client decoded is what it may see.
fn check_view(
    rt: &impl Abort,
    alloc: Global,
    live: &LiveState,
    client: &Client,
) -> Result<(), Fail> {
    let pairs = client.members.pairs()?;
    let expected = permitted(alloc, live.schema(), &live.rows()?, pairs.as_slice())?;
    let seen = client.decoder.rows()?;
    assert_eq!(rt;
        format!(in alloc; "{seen:?}")?,
        format!(in alloc; "{expected:?}")?
    );
    Ok(())
}
