//! What a request leads to.
ghost use Rattle.std.specs.Prelude.{◌≡◌, ◌<◌, ◌^◌, ◌++◌, codes, length, option_and_then, true, IfOk, OnErr};
ghost use Rattle.std.specs.List.{position};
ghost use Rattle.hub_model.specs.Decisions.{by_def, decide, joined_at, kept_at, meets, room_at};
ghost use Rattle.matchmaker.specs.Found.{found_decision};
ghost use Rattle.frame_model.specs.declared.codes.TheConstants.{INVALID_ROOM};
ghost use Rattle.hub_model.specs.declared.request.Decision.TheVariants as decision;
ghost use Rattle.matchmaker.specs.Gives.{is_refusal};

use crate::listing::{def_at, is_open_at, oldest, room_at};
use frame_model::codes::{EXPIRED, INVALID_CRITERIA, INVALID_ROOM, NO_HANDLER};
use hub_model::{Decision, Listing, Method, Request};
use lists::{Memory, Text};
use room_model::RoomDef;
use schema_model::Id;
use std::alloc::Global;

/// What a request leads to. Rooms are in the order of their creation, and `kept` is the session whose seat is kept under
/// the request's token in the room that it names. Memory is taken only for the text of a refusal.
pub fn decide(
    alloc: Global,
    defs: &[RoomDef],
    rooms: &[Listing],
    request: &Request,
    kept: Option<Id>,
) -> Result<Decision, Memory>
    requires defs { length defs.now < 2 ^ 32 }
    requires rooms { length rooms.now < 2 ^ 32 }
    ensures value { IfOk result (λ d. d ≡ decide defs.now rooms.now request.now kept) }
    ensures memory { OnErr result (is_refusal (decide defs.now rooms.now request.now kept) ≡ true) }
{
    match request.method {
        Method::JoinById => joined_at(alloc, rooms, request.name.as_str()),
        Method::Reconnect => kept_at(alloc, rooms, request.name.as_str(), kept),
        Method::JoinOrCreate | Method::Create | Method::Join => by_def(alloc, defs, rooms, request),
    }
}

// The oldest room that is open to the request, or what its method does where there is none.
fn by_def(
    alloc: Global,
    defs: &[RoomDef],
    rooms: &[Listing],
    request: &Request,
) -> Result<Decision, Memory>
    requires defs { length defs.now < 2 ^ 32 }
    requires rooms { length rooms.now < 2 ^ 32 }
    ensures value { IfOk result (λ d. d ≡ by_def defs.now rooms.now request.now) }
    ensures memory { OnErr result (is_refusal (by_def defs.now rooms.now request.now) ≡ true) }
{
    let def = def_at(defs, request.name.as_str());
    let room = oldest_in(rooms, def, request.criteria.as_slice());
    decide_found(alloc, &request.method, def, room)
}

// The oldest room that is open, of a definition where one was found, and has these criteria.
fn oldest_in(rooms: &[Listing], def: Option<u32>, criteria: &[Text]) -> Option<u32>
    requires { length rooms.now < 2 ^ 32 }
    ensures { result ≡ option_and_then (λ d. position (meets d criteria.now) rooms.now) def }
{
    match def {
        Some(def) => oldest(rooms, def, criteria),
        None => None,
    }
}

/// What a request by the name of a definition leads to where these were found: the definition, and the oldest room of it that
/// is open and has the request's criteria. Memory is taken only for the text of a refusal.
pub fn decide_found(
    alloc: Global,
    method: &Method,
    def: Option<u32>,
    room: Option<u32>,
) -> Result<Decision, Memory>
    ensures value { IfOk result (λ d. d ≡ found_decision method.now def room) }
    ensures memory { OnErr result (is_refusal (found_decision method.now def room) ≡ true) }
{
    let Some(def) = def else {
        return refuse(alloc, NO_HANDLER, "no handler");
    };
    match method {
        Method::JoinOrCreate => Ok(match room {
            Some(room) => Decision::Join(room),
            None => Decision::Make(def),
        }),
        Method::Join => match room {
            Some(room) => Ok(Decision::Join(room)),
            None => refuse(alloc, INVALID_CRITERIA, "no room meets the criteria"),
        },
        Method::Create | Method::JoinById | Method::Reconnect => Ok(Decision::Make(def)),
    }
}

// The room of an id, unless it is locked or full.
fn joined_at(alloc: Global, rooms: &[Listing], id: &str) -> Result<Decision, Memory>
    requires { length rooms.now < 2 ^ 32 }
    ensures value { IfOk result (λ d. d ≡ joined_at rooms.now id.now (room_at rooms.now id.now)) }
    ensures memory { OnErr result (is_refusal (joined_at rooms.now id.now (room_at rooms.now id.now)) ≡ true) }
{
    let Some(at) = room_at(rooms, id) else {
        return refuse_room(alloc, id, "not found");
    };
    if is_open_at(rooms, at) {
        Ok(Decision::Join(at))
    } else {
        refuse_room(alloc, id, "is locked")
    }
}

// The seat of a session in the room of an id.
fn kept_at(alloc: Global, rooms: &[Listing], id: &str, kept: Option<Id>) -> Result<Decision, Memory>
    requires { length rooms.now < 2 ^ 32 }
    ensures value { IfOk result (λ d. d ≡ kept_at id.now kept (room_at rooms.now id.now)) }
    ensures memory { OnErr result (is_refusal (kept_at id.now kept (room_at rooms.now id.now)) ≡ true) }
{
    let Some(at) = room_at(rooms, id) else {
        return refuse_room(alloc, id, "not found");
    };
    match kept {
        Some(session) => Ok(Decision::Return(at, session)),
        None => refuse(alloc, EXPIRED, "seat expired"),
    }
}

fn refuse(alloc: Global, code: u16, text: &str) -> Result<Decision, Memory>
    ensures { IfOk result (λ d. d ≡ decision.Refuse code text.now) }
{
    Ok(Decision::Refuse(u32::from(code), Text::from_text(alloc, text)?))
}

fn refuse_room(alloc: Global, id: &str, what: &str) -> Result<Decision, Memory>
    ensures { IfOk result (λ d. d ≡ decision.Refuse INVALID_ROOM (codes "room " ++ (id.now ++ (codes " " ++ what.now)))) }
{
    let text = format!(in alloc; "room {id} {what}")?;
    Ok(Decision::Refuse(u32::from(INVALID_ROOM), Text::from_string(text)))
}
