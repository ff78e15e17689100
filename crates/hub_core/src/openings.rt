//! Openings.
ghost use Rattle.std.specs.Prelude.{◌≡◌, ◌+◌, ◌≤◌, ◌++◌, ◌&&◌, true, None, if◌then◌else◌, is_some, IsSome, IsTrue, OnOk};
ghost use Rattle.std.specs.List.{find, list_any};
ghost use Rattle.std.specs.Str.{bytes_eq};
ghost use Rattle.lists.specs.Rising.{find as find_by, put};
ghost use Rattle.room_model.specs.declared.event.RoomEvent.TheVariants as room_event;
ghost use Rattle.room_model.specs.Outs.{is_entry};
ghost use Rattle.hub_model.specs.declared.event.HubEvent.TheVariants as event;
ghost use Rattle.hub_model.specs.HubStep.{opening_of};
ghost use Rattle.hub_model.specs.HubValues.{conn_for, conn_number, room_of};
ghost use Rattle.schema_model.specs.Ids.{is_id};
ghost use Rattle.hub_core.specs.Costs.{cost_in, hub_cost};
ghost use Rattle.hub_core.specs.Hubs.{Stands, hub_of};
ghost use Rattle.hub_core.specs.Handled.{entered_in};
ghost use Rattle.hub_core.specs.RoomEntry.{has_id, serial_of};
ghost use Rattle.hub_core.specs.Takes.{Takes, rules_of};

use crate::conns::Conns;
use crate::parts::Parts;
use crate::refuse::refuse_opening;
use crate::status::Turn;
use crate::tell::{end_all, ended, tell_opened};
use frame_model::codes::INVALID_ROOM;
use hub_model::{HubConn, HubOut, HubOuts, Opening};
use lists::Memory;
use matchmaker::read_target;
use room_like::RoomLike;
use room_model::{Refusal, RoomEvent, RoomOut};
use schema_model::{ConnNum, Id};
use std::sync::ledger::Ledger;
use steps::Steps;

impl<R: RoomLike> Parts<R> {
    /// The opening of a connection, with the token that was drawn for it.
    pub fn opening<L: Ledger>(
        &mut self,
        conn: ConnNum,
        target: &str,
        fresh: Id,
        outs: &mut HubOuts,
        steps: &mut Steps<L>,
    ) -> Result<(), Memory>
        requires stands { Stands R.room R.Holds self.old }
        requires fresh { IsTrue (is_id fresh) }
        ensures takes { OnOk result (Takes R.room R.Holds R.handled (event.Opening conn target.now fresh) self.old self.new outs.old outs.new) }
        ensures cost { steps.new ≤ steps.old + hub_cost R.costs (rules_of R.handled) (hub_of R.room self.old) (event.Opening conn target.now fresh) }
    {
        self.registry.rooms.know();
        if self.conns.get(conn).is_some() {
            return outs.push(HubOut::Refused(Refusal::ConnInUse));
        }
        match self.opening_of(target) {
            Some(opening) => self.enter(conn, fresh, &opening, outs, steps),
            None => refuse_opening(self.alloc, conn, INVALID_ROOM, "no such room", outs),
        }
    }

    // What a target opens, where it names the process and a room of the hub.
    fn opening_of(&self, target: &str) -> Option<Opening>
        ensures { result ≡ opening_of (hub_of R.room self.now) target.now }
    {
        let opening = read_target(target)?;
        if self.is_ours(&opening) {
            Some(opening)
        } else {
            None
        }
    }

    // It names the process, and a room of the hub.
    fn is_ours(&self, opening: &Opening) -> bool
        ensures { result ≡ (bytes_eq opening.now.process self.now.process && is_some (room_of (hub_of R.room self.now) opening.now.room)) }
    {
        match self.registry.rooms.locate(opening.room) {
            Some(_) => opening.process.0 == self.process.0,
            None => false,
        }
    }

    // The opening of a connection that has no session gets to its room: a session enters it, or is refused.
    fn enter<L: Ledger>(
        &mut self,
        conn: ConnNum,
        fresh: Id,
        opening: &Opening,
        outs: &mut HubOuts,
        steps: &mut Steps<L>,
    ) -> Result<(), Memory>
        requires stands { Stands R.room R.Holds self.old }
        requires fresh { IsTrue (is_id fresh) }
        requires free { find_by conn_number conn self.old.conns ≡ None }
        requires there { IsSome (find (has_id opening.now.room) self.old.registry.rooms) }
        ensures hub { OnOk result (hub_of R.room self.new ≡ (entered_in R.handled (hub_of R.room self.old) conn fresh opening.now).0) }
        ensures outs { OnOk result (outs.new ≡ outs.old ++ (entered_in R.handled (hub_of R.room self.old) conn fresh opening.now).1) }
        ensures stands { OnOk result (Stands R.room R.Holds self.new) }
        ensures cost { steps.new ≤ steps.old + cost_in R.room R.costs self.old.registry.rooms opening.now.room (room_event.Enter opening.now.session opening.now.token fresh) }
    {
        let Some(at) = self.registry.rooms.locate(opening.room) else {
            return Ok(());
        };
        let event = RoomEvent::Enter(opening.session, opening.token, fresh);
        let Turn { outs: given, .. } = self.registry.step(self.alloc, at, &event, steps)?;
        connect(&mut self.conns, conn, opening, at.slot, given.as_slice())?;
        let sessions = ended(self.alloc, given.as_slice())?;
        tell_opened(
            self.alloc,
            &self.conns,
            opening.room,
            conn,
            fresh,
            given,
            outs,
        )?;
        end_all(&mut self.conns, opening.room, sessions.as_slice());
        self.registry.dispose(self.alloc, at, outs)
    }
}

// Notes the connection of a session that the outputs of the room in a slot let in.
fn connect(
    conns: &mut Conns,
    conn: ConnNum,
    opening: &Opening,
    slot: usize,
    outs: &[RoomOut],
) -> Result<(), Memory>
    requires number { find_by conn_number conn conns.old ≡ None }
    requires session { list_any (is_entry opening.now.session) outs.now ≡ true → conn_for conns.old opening.now.room opening.now.session ≡ None }
    ensures { OnOk result (conns.new ≡ (if list_any (is_entry opening.now.session) outs.now then put conn_number (record { conn = conn; room = opening.now.room; session = opening.now.session }) conns.old else conns.old)) }
{
    if enters(outs, opening.session) {
        let opened = HubConn {
            conn,
            room: opening.room,
            session: opening.session,
        };
        conns.open(opened, slot)?;
    }
    Ok(())
}

// Outputs enter a session.
fn enters(outs: &[RoomOut], session: Id) -> bool
    ensures { result ≡ list_any (is_entry session) outs.now }
{
    outs.iter().any(|out| is_entry(out, session))
}

// An output enters a session.
fn is_entry(out: &RoomOut, session: Id) -> bool
    ensures { result ≡ is_entry session out.now }
{
    match out {
        RoomOut::Entered(other) | RoomOut::Back(other) => other.0 == session.0,
        RoomOut::Send(_, _)
        | RoomOut::Close(_, _)
        | RoomOut::NoSeat(_)
        | RoomOut::TokenInUse(_)
        | RoomOut::Message(_, _, _)
        | RoomOut::RawMessage(_, _, _)
        | RoomOut::Dropped(_)
        | RoomOut::Left(_)
        | RoomOut::Made(_)
        | RoomOut::Refused(_) => false,
    }
}
