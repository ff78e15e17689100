//! What rooms give, as the hub gives it.
ghost use Rattle.std.specs.Prelude.{◌≡◌, ◌++◌, IfOk, IfSome, IsTrue, OnOk};
ghost use Rattle.std.specs.List.{flat_map};
ghost use Rattle.std.specs.Option.{option_map, option_to_list};
ghost use Rattle.hub_model.specs.Dealt.{opened_out, told_out};
ghost use Rattle.schema_model.specs.Ids.{is_id};
ghost use Rattle.hub_model.specs.HubValues.{conn_for, conn_number};
ghost use Rattle.hub_core.specs.Conns.{IsOwn};
ghost use Rattle.hub_core.specs.Endings.{ended_by, without_all};

use crate::conns::{Conns, Linked};
use crate::refuse::{in_use_text, refuse_opening};
use frame_model::codes::{EXPIRED, UNHANDLED};
use hub_model::{HubOut, HubOuts};
use lists::Memory;
use room_model::{RoomOut, RoomOuts};
use schema_model::{ConnNum, Id};
use std::alloc::Global;

/// What a room gives for an event, which may have come from one of its connections.
pub fn tell_all(
    conns: &Conns,
    room: Id,
    from: Option<Linked>,
    given: RoomOuts,
    outs: &mut HubOuts,
) -> Result<(), Memory>
    requires own { IsOwn conns.now from }
    requires room { IfSome from (λ c. c.room ≡ room) }
    ensures { OnOk result (outs.new ≡ outs.old ++ flat_map (told_out conns.now room) given) }
{
    for out in given.into_vec() {
        if let Some(one) = tell(conns, room, &from, out) {
            outs.push(one)?;
        }
    }
    Ok(())
}

/// What a room gives for the opening of a connection with a fresh token.
pub fn tell_opened(
    alloc: Global,
    conns: &Conns,
    room: Id,
    conn: ConnNum,
    fresh: Id,
    given: RoomOuts,
    outs: &mut HubOuts,
) -> Result<(), Memory>
    requires { IsTrue (is_id fresh) }
    ensures { OnOk result (outs.new ≡ outs.old ++ flat_map (opened_out conn fresh conns.now room) given) }
{
    for out in given.into_vec() {
        tell_answer(alloc, conns, room, conn, fresh, out, outs)?;
    }
    Ok(())
}

// An output of it: a refusal of the opening goes to its connection.
fn tell_answer(
    alloc: Global,
    conns: &Conns,
    room: Id,
    conn: ConnNum,
    fresh: Id,
    out: RoomOut,
    outs: &mut HubOuts,
) -> Result<(), Memory>
    requires { IsTrue (is_id fresh) }
    ensures { OnOk result (outs.new ≡ outs.old ++ opened_out conn fresh conns.now room out) }
{
    match out {
        RoomOut::NoSeat(_) => refuse_opening(alloc, conn, EXPIRED, "seat expired", outs),
        RoomOut::TokenInUse(_) => {
            let text = in_use_text(alloc, &fresh)?;
            refuse_opening(alloc, conn, UNHANDLED, text.as_str(), outs)
        }
        out => match tell(conns, room, &None, out) {
            Some(one) => outs.push(one),
            None => Ok(()),
        },
    }
}

// An output, where it goes anywhere.
fn tell(conns: &Conns, room: Id, from: &Option<Linked>, out: RoomOut) -> Option<HubOut>
    requires own { IsOwn conns.now from.now }
    requires room { IfSome from.now (λ c. c.room ≡ room) }
    ensures { option_to_list result ≡ told_out conns.now room out }
{
    match out {
        RoomOut::Send(session, bytes) => match number_of(conns, room, from, session) {
            Some(conn) => Some(HubOut::Send(conn, bytes)),
            None => None,
        },
        RoomOut::Close(session, code) => match number_of(conns, room, from, session) {
            Some(conn) => Some(HubOut::Close(conn, code)),
            None => None,
        },
        RoomOut::Entered(session) => Some(HubOut::Joined(room, session)),
        RoomOut::Back(session) => Some(HubOut::Returned(room, session)),
        RoomOut::NoSeat(_) | RoomOut::TokenInUse(_) => None,
        RoomOut::Message(session, kind, payload) => Some(HubOut::Message(
            room, session, kind, payload,
        )),
        RoomOut::RawMessage(session, kind, payload) => Some(HubOut::RawMessage(
            room, session, kind, payload,
        )),
        RoomOut::Dropped(session) => Some(HubOut::Dropped(room, session)),
        RoomOut::Left(session) => Some(HubOut::Left(room, session)),
        RoomOut::Made(number) => Some(HubOut::Made(room, number)),
        RoomOut::Refused(refusal) => Some(HubOut::Refused(refusal)),
    }
}

// The number of the connection of a session: that from which the event came, where it is of the session.
fn number_of(conns: &Conns, room: Id, from: &Option<Linked>, session: Id) -> Option<ConnNum>
    requires own { IsOwn conns.now from.now }
    requires room { IfSome from.now (λ c. c.room ≡ room) }
    ensures { result ≡ option_map conn_number (conn_for conns.now room session) }
{
    match from {
        Some(linked) if linked.session.0 == session.0 => Some(linked.conn),
        _ => conns.number_of(room, session),
    }
}

/// The sessions whose connections a room's outputs end, in their order.
pub fn ended(alloc: Global, outs: &[RoomOut]) -> Result<Vec<Id>, Memory>
    ensures { IfOk result (λ ids. ids.items ≡ flat_map ended_by outs.now) }
{
    let mut ids = Vec::new(alloc);
    for out in outs {
        if let Some(session) = ended_by(out) {
            ids.push(session)?;
        }
    }
    Ok(ids)
}

// The session whose connection an output ends.
fn ended_by(out: &RoomOut) -> Option<Id>
    ensures { option_to_list result ≡ ended_by out.now }
{
    match out {
        RoomOut::Close(session, _) | RoomOut::Dropped(session) | RoomOut::Left(session) => {
            Some(*session)
        }
        RoomOut::Send(_, _)
        | RoomOut::Entered(_)
        | RoomOut::Back(_)
        | RoomOut::NoSeat(_)
        | RoomOut::TokenInUse(_)
        | RoomOut::Message(_, _, _)
        | RoomOut::RawMessage(_, _, _)
        | RoomOut::Made(_)
        | RoomOut::Refused(_) => None,
    }
}

/// Takes out the connections of sessions of a room.
pub fn end_all(conns: &mut Conns, room: Id, sessions: &[Id])
    ensures { conns.new ≡ without_all room sessions.now conns.old }
{
    for session in sessions {
        conns.end(room, *session);
    }
}
