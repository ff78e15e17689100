//! What requests lead to.
ghost use Rattle.std.specs.Prelude.{◌≡◌, ◌<◌, ◌^◌, true, false, Some, None, Ok, if◌then◌else◌, option_copied, length, map, option_and_then, IfOk, IfSome};
ghost use Rattle.std.specs.List.{find};
ghost use Rattle.std.specs.Option.{option_map, option_map_or};
ghost use Rattle.room_model.specs.Ledger.{kept_by as keeper_of};
ghost use Rattle.hub_model.specs.Decisions.{decide};
ghost use Rattle.hub_model.specs.HubStep.{criteria_of, kept_session, outcome};
ghost use Rattle.hub_model.specs.HubValues.{is_used, listings};
ghost use Rattle.hub_model.specs.Requests.{read_request};
ghost use Rattle.matchmaker.specs.Bodies.{said_by};
ghost use Rattle.hub_core.specs.SessionRooms.{has_in, room_of_session};
ghost use Rattle.hub_core.specs.Hubs.{Stands, hub_of};
ghost use Rattle.hub_core.specs.Outcome.{Leads, is_by_id, outcome_in, listed, oldest_of_def, used_of};
ghost use Rattle.hub_core.specs.declared.outcome.Outcome.TheVariants as leads;
ghost use Rattle.hub_core.specs.RoomEntry.{has_id, room_in};

use crate::entry::RoomEntry;
use crate::open_rooms::criteria_key;
use crate::outcome::Outcome;
use crate::parts::Parts;
use frame_model::codes::{INVALID_PAYLOAD, NO_HANDLER};
use hub_model::{AskFault, Decision, Listing, Method, Request};
use lists::{Memory, Seq, Text};
use matchmaker::{decide, decide_found, def_at, read_request};
use room_like::RoomLike;
use room_model::Texts;
use schema_model::{Id, id_of};
use std::alloc::Global;

impl<R: RoomLike> Parts<R> {
    /// What a target and a body lead to, before drawn ids are looked at.
    pub fn outcome(&self, target: &str, body: &[u8]) -> Result<Outcome, Memory>
        requires { Stands R.room R.Holds self.now }
        ensures { IfOk result (Leads self.now.registry.rooms (length self.now.defs) (criteria_of (read_request self.now.defs target.now (said_by body.now))) (outcome (hub_of R.room self.now) (read_request self.now.defs target.now (said_by body.now)))) }
    {
        match read_request(self.alloc, self.defs.as_slice(), target, body) {
            Ok(request) => self.decided(request),
            Err(AskFault::NoMethod) => refuse(self.alloc, NO_HANDLER, "no method"),
            Err(AskFault::BadPayload) => refuse(self.alloc, INVALID_PAYLOAD, "invalid payload"),
            Err(AskFault::NoHandler) => refuse(self.alloc, NO_HANDLER, "no handler"),
            Err(AskFault::Memory) => Err(Memory),
        }
    }

    // What a request leads to.
    fn decided(&self, request: Request) -> Result<Outcome, Memory>
        requires { Stands R.room R.Holds self.now }
        ensures { IfOk result (Leads self.now.registry.rooms (length self.now.defs) request.criteria (outcome (hub_of R.room self.now) (Ok request))) }
    {
        match request.method {
            Method::JoinById | Method::Reconnect => self.decided_by_id(&request),
            Method::JoinOrCreate | Method::Create | Method::Join => self.decided_by_def(request),
        }
    }

    // The same by the room of its name.
    fn decided_by_id(&self, request: &Request) -> Result<Outcome, Memory>
        requires stands { Stands R.room R.Holds self.now }
        requires by_id { is_by_id request.now.method ≡ true }
        ensures { IfOk result (Leads self.now.registry.rooms (length self.now.defs) request.now.criteria (outcome (hub_of R.room self.now) (Ok request.now))) }
    {
        let criteria = Seq::new(self.alloc);
        let Some(entry) = self.named(request.name.as_str()) else {
            let decision = decide(self.alloc, self.defs.as_slice(), &[], request, None)?;
            return Ok(in_room(decision, 0, criteria));
        };
        let rooms = [listed(self.alloc, entry)];
        let kept = kept_by(&entry.room, request.token);
        let decision = decide(self.alloc, self.defs.as_slice(), &rooms, request, kept)?;
        Ok(in_room(decision, entry.serial, criteria))
    }

    // The room of a name that is its id.
    fn named(&self, name: &str) -> Option<&RoomEntry<R>>
        requires { Stands R.room R.Holds self.now }
        ensures { option_copied result ≡ find (has_id name.now) self.now.registry.rooms }
    {
        self.registry.rooms.know();
        self.registry.rooms.find(id_of(name.as_bytes())?)
    }

    // The same by the definition of its name, of which only the oldest open room with its criteria is looked at.
    fn decided_by_def(&self, request: Request) -> Result<Outcome, Memory>
        requires stands { Stands R.room R.Holds self.now }
        requires by_def { is_by_id request.method ≡ false }
        ensures { IfOk result (Leads self.now.registry.rooms (length self.now.defs) request.criteria (outcome (hub_of R.room self.now) (Ok request))) }
    {
        let def = def_at(self.defs.as_slice(), request.name.as_str());
        let oldest = self.oldest(def, request.criteria.as_slice())?;
        let room = only_place(oldest);
        let decision = decide_found(self.alloc, &request.method, def, room)?;
        Ok(in_room(decision, oldest.unwrap_or(0), request.criteria))
    }

    // The number of the oldest room of a definition that is open and has these criteria.
    fn oldest(&self, def: Option<u32>, criteria: &[Text]) -> Result<Option<u64>, Memory>
        requires stands { Stands R.room R.Holds self.now }
        requires def { IfSome def (λ d. d < length self.now.defs) }
        ensures { IfOk result (λ n. n ≡ option_and_then (oldest_of_def R.room self.now.registry.rooms criteria.now) def) }
    {
        let Some(def) = def else {
            return Ok(None);
        };
        self.registry.rooms.know();
        let key = criteria_key(self.alloc, criteria)?;
        Ok(self.registry.open_rooms[def as usize].oldest(&key))
    }

    /// The drawn id for which it is refused, since it is a room's or a session's: a new room uses both, the room's first.
    pub fn used(&self, outcome: &Outcome, room: Id, session: Id) -> Option<Id>
        requires { Stands R.room R.Holds self.now }
        ensures { result ≡ used_of (is_used (hub_of R.room self.now)) outcome.now room session }
    {
        match outcome {
            Outcome::Make(_, _) => match self.used_id(room) {
                Some(id) => Some(id),
                None => self.used_id(session),
            },
            Outcome::Join(_) => self.used_id(session),
            Outcome::Refuse(_, _) | Outcome::Return(_, _) => None,
        }
    }

    // An id, where it is a room's or a session's.
    fn used_id(&self, id: Id) -> Option<Id>
        requires { Stands R.room R.Holds self.now }
        ensures { result ≡ (if is_used (hub_of R.room self.now) id then Some id else None) }
    {
        if self.is_used(id) { Some(id) } else { None }
    }

    // An id is a room's or a session's.
    fn is_used(&self, id: Id) -> bool
        requires { Stands R.room R.Holds self.now }
        ensures { result ≡ is_used (hub_of R.room self.now) id }
    {
        self.registry.rooms.know();
        match self.registry.rooms.locate(id) {
            Some(_) => true,
            None => self.has_session(id),
        }
    }

    // The room in which it was reserved last has the session.
    fn has_session(&self, id: Id) -> bool
        ensures { result ≡ option_map_or (λ n. has_in R.room self.now.registry.rooms n id) (room_of_session id self.now.session_rooms) false }
    {
        match self.session_rooms.get(id) {
            Some(serial) => self.registry.rooms.has_session(serial, id),
            None => false,
        }
    }
}

/// A room as a request sees it that names it: what it was made for doesn't matter.
pub fn listed<R: RoomLike>(alloc: Global, entry: &RoomEntry<R>) -> Listing
    ensures { result ≡ listed (room_in R.room entry.now) }
{
    Listing {
        id: entry.id,
        def: entry.def,
        locked: entry.room.locked(),
        in_use: entry.room.in_use(),
        max: entry.room.max(),
        criteria: Seq::new(alloc),
    }
}

// The session whose seat is kept under a token, where there is one.
fn kept_by<R: RoomLike>(room: &R, token: Option<Id>) -> Option<Id>
    ensures { result ≡ option_and_then (keeper_of (R.room room.now).seats) token }
{
    room.kept_by(token?)
}

// The place of the one room that is looked at, where there is one.
fn only_place(oldest: Option<u64>) -> Option<u32>
    ensures { result ≡ option_map (λ n. 0) oldest }
{
    match oldest {
        Some(_) => Some(0),
        None => None,
    }
}

// A decision about one room, of a number; a new room is given criteria.
fn in_room(decision: Decision, serial: u64, criteria: Texts) -> Outcome
    ensures { result ≡ outcome_in serial criteria decision }
{
    match decision {
        Decision::Refuse(code, text) => Outcome::Refuse(code, text),
        Decision::Join(_) => Outcome::Join(serial),
        Decision::Return(_, session) => Outcome::Return(serial, session),
        Decision::Make(def) => Outcome::Make(def, criteria),
    }
}

fn refuse(alloc: Global, code: u16, text: &str) -> Result<Outcome, Memory>
    ensures { IfOk result (λ l. l ≡ leads.Refuse code text.now) }
{
    Ok(Outcome::Refuse(u32::from(code), Text::from_text(alloc, text)?))
}
