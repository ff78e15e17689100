//! Seats that requests get.
ghost use Rattle.std.specs.Prelude.{◌≡◌, ◌+◌, ◌≤◌, ◌++◌, ◌∷◌, ◌<◌, ◌^◌, ◌==◌, [], false, None, length, slice_get, IfOk, IfSome, IsSome, IsTrue, OnOk};
ghost use Rattle.std.specs.List.{find};
ghost use Rattle.lists.specs.Rising.{find as find_by};
ghost use Rattle.room_model.specs.declared.event.RoomEvent.TheVariants as event;
ghost use Rattle.room_laws.specs.Names.{has_session};
ghost use Rattle.room_laws.specs.Places.{has_place_for};
ghost use Rattle.hub_model.specs.declared.event.HubOut.TheVariants as out;
ghost use Rattle.hub_model.specs.HubStep.{seat_text};
ghost use Rattle.hub_model.specs.HubValues.{def_of_room};
ghost use Rattle.schema_model.specs.Ids.{is_id};
ghost use Rattle.hub_model.specs.Replies.{refusal_reply};
ghost use Rattle.hub_core.specs.Hubs.{InOrder, IsNeeded, hub_of};
ghost use Rattle.hub_core.specs.Seated.{Added, Seated};
ghost use Rattle.hub_core.specs.RoomEntry.{Each, has_id, room_in, serial_of};

use crate::parts::Parts;
use crate::requests::listed;
use crate::slots::RoomRef;
use hub_model::{HubOut, HubOuts};
use lists::Memory;
use matchmaker::{refusal_text, reply_text};
use room_like::RoomLike;
use room_model::{RoomEvent, Texts};
use schema_model::{ConnNum, Id};
use std::alloc::Global;
use std::sync::ledger::Ledger;
use steps::Steps;

impl<R: RoomLike> Parts<R> {
    /// Makes a room of a definition, tells so, and gives its number.
    pub fn create(
        &mut self,
        def: u32,
        criteria: Texts,
        room: Id,
        outs: &mut HubOuts,
    ) -> Result<RoomRef, Memory>
        requires order { InOrder R.room R.Holds self.old }
        requires def { def < length self.old.defs }
        requires room { IsTrue (is_id room) }
        requires free { find (has_id room) self.old.registry.rooms ≡ None }
        ensures { IfOk result (λ at. IfSome (slice_get self.old.defs def) (λ d. Added R.room R.Holds d def criteria room at.serial self.old self.new outs.old outs.new)) }
    {
        let own = &self.defs.as_slice()[def as usize];
        let name = own.name.copy(self.alloc)?;
        let made = R::make(self.alloc, &self.schema, own, &criteria)?;
        let at = self.registry.push(self.alloc, room, def, criteria, made)?;
        outs.push(HubOut::Created(room, name))?;
        Ok(at)
    }

    /// Reserves a seat for a session, which no room has, in the room of a number, and answers its request.
    pub fn reserve<L: Ledger>(
        &mut self,
        at: RoomRef,
        conn: ConnNum,
        session: Id,
        outs: &mut HubOuts,
        steps: &mut Steps<L>,
    ) -> Result<(), Memory>
        requires order { InOrder R.room R.Holds self.old }
        requires needed { Each (λ s. (s.serial == at.serial) ≡ false → IsNeeded R.room s) self.old.registry.rooms }
        requires there { IsSome (find_by serial_of at.serial self.old.registry.rooms) }
        requires place { IfSome (find_by serial_of at.serial self.old.registry.rooms) (λ s. IsTrue (has_place_for (R.room s.room) session)) }
        requires session { IsTrue (is_id session) }
        requires free { Each (λ s. has_session (R.room s.room) session ≡ false) self.old.registry.rooms }
        ensures seated { OnOk result (IfSome (find_by serial_of at.serial self.old.registry.rooms) (λ s. Seated R.room R.Holds R.handled conn session s self.old self.new outs.old outs.new)) }
        ensures cost { IfSome (find_by serial_of at.serial self.old.registry.rooms) (λ s. steps.new ≤ steps.old + R.costs (R.room s.room) (event.Reserve session (self.old.moment + (def_of_room self.old.defs (room_in R.room s)).seat))) }
    {
        self.session_rooms
            .note(self.alloc, session, at.serial, &self.registry.rooms)?;
        let event = RoomEvent::Reserve(session, self.lapse_in(at));
        self.handle_at(at, None, &event, outs, steps)?;
        self.reply(at, conn, session, outs)?;
        self.registry.dispose(self.alloc, at, outs)
    }

    // When a reservation lapses that is made now in the room of a number.
    fn lapse_in(&self, at: RoomRef) -> u64
        requires { InOrder R.room R.Holds self.now }
        ensures value { IfSome (find_by serial_of at.serial self.now.registry.rooms) (λ s. result ≡ self.now.moment + (def_of_room self.now.defs (room_in R.room s)).seat) }
        ensures early { result < 2 ^ 54 }
    {
        match self.registry.rooms.get(at) {
            Some(entry) => self.moment + self.defs.as_slice()[entry.def as usize].seat,
            None => self.moment,
        }
    }

    /// Tells that a request got the seat of a session in the room of a number.
    pub fn reply(
        &self,
        at: RoomRef,
        conn: ConnNum,
        session: Id,
        outs: &mut HubOuts,
    ) -> Result<(), Memory>
        requires order { InOrder R.room R.Holds self.now }
        requires there { IsSome (find_by serial_of at.serial self.now.registry.rooms) }
        requires session { IsTrue (is_id session) }
        ensures { OnOk result (IfSome (find_by serial_of at.serial self.now.registry.rooms) (λ s. outs.new ≡ outs.old ++ out.Reply conn (seat_text (hub_of R.room self.now) session (room_in R.room s)) ∷ [])) }
    {
        let Some(entry) = self.registry.rooms.get(at) else {
            return Ok(());
        };
        let own = &self.defs.as_slice()[entry.def as usize];
        let listing = listed(self.alloc, entry);
        let name = own.name.as_str();
        let text = reply_text(self.alloc, &listing, name, self.process, session)?;
        outs.push(HubOut::Reply(conn, text))
    }
}

/// Tells that a request is refused.
pub fn refuse_request(
    alloc: Global,
    conn: ConnNum,
    code: u32,
    text: &str,
    outs: &mut HubOuts,
) -> Result<(), Memory>
    ensures { OnOk result (outs.new ≡ outs.old ++ out.Reply conn (refusal_reply code text.now) ∷ []) }
{
    let text = refusal_text(alloc, code, text)?;
    outs.push(HubOut::Reply(conn, text))
}
