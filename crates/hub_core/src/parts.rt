//! A hub's parts, and the events of one room.
ghost use Rattle.std.specs.Prelude.{◌≡◌, ◌+◌, ◌≤◌, ◌++◌, ◌<◌, ◌^◌, ℕ, true, false, List, Some, None, length, IfOk, IfSome, IsSome, IsTrue, OnOk};
ghost use Rattle.std.specs.List.{find, list_all};
ghost use Rattle.std.specs.Option.{option_map};
ghost use Rattle.lists.specs.Rising.{find as find_by};
ghost use Rattle.room_model.specs.Definitions.{is_room_def};
ghost use Rattle.room_laws.specs.Names.{reserves};
ghost use Rattle.room_laws.specs.Places.{may_happen};
ghost use Rattle.room_laws.specs.StepLaws.{opens};
ghost use Rattle.hub_model.specs.HubValues.{new_hub};
ghost use Rattle.schema_model.specs.Ids.{is_id};
ghost use Rattle.hub_core.specs.SessionRooms.{room_of_session};
ghost use Rattle.hub_core.specs.Hubs.{InOrder, Stands, hub_of};
ghost use Rattle.hub_core.specs.Conns.{IsOwn};
ghost use Rattle.hub_core.specs.Costs.{cost_in};
ghost use Rattle.hub_core.specs.Handled.{handled_in};
ghost use Rattle.hub_core.specs.RoomEntry.{AreOrdered, has_id, ref_serial, serial_of};
ghost use Rattle.hub_core.specs.Turned.{Turned};

use crate::conns::{Conns, Linked};
use crate::registry::Registry;
use crate::session_rooms::SessionRooms;
use crate::slots::RoomRef;
use crate::status::Turn;
use crate::tell::{end_all, ended, tell_all};
use hub_model::{HubOut, HubOuts};
use lists::Memory;
use room_like::RoomLike;
use room_model::{Defs, Refusal, RoomEvent, RoomOuts};
use schema_model::{Id, Schema};
use std::alloc::Global;
use std::sync::ledger::Ledger;
use steps::Steps;

/// The moment, what the hub was made with, its rooms with what is noted of them, its connections, and where sessions were
/// reserved.
#[derive(Drop)]
pub struct Parts<R> {
    pub alloc: Global,
    pub moment: u64,
    pub schema: Schema,
    pub process: Id,
    pub defs: Defs,
    pub registry: Registry<R>,
    pub conns: Conns,
    pub session_rooms: SessionRooms,
}

impl<R: RoomLike> Parts<R> {
    /// The parts of a hub without rooms, at moment 0.
    pub fn new(alloc: Global, schema: Schema, process: Id, defs: Defs) -> Result<Parts<R>, Memory>
        requires few { length defs < 2 ^ 32 }
        requires forms { list_all is_room_def defs ≡ true }
        requires process { IsTrue (is_id process) }
        ensures hub { IfOk result (λ p. hub_of R.room p ≡ new_hub schema process defs) }
        ensures stands { IfOk result (Stands R.room R.Holds) }
    {
        let registry = Registry::new(alloc, defs.len())?;
        Ok(Parts {
            alloc,
            moment: 0,
            schema,
            process,
            defs,
            registry,
            conns: Conns::new(alloc),
            session_rooms: SessionRooms::new(alloc),
        })
    }

    /// An event of the room of an id, which opens and reserves nothing, and may come from a connection of it; where there is
    /// no such room it is refused.
    pub fn handle_in<L: Ledger>(
        &mut self,
        room: Id,
        from: Option<Linked>,
        event: &RoomEvent,
        outs: &mut HubOuts,
        steps: &mut Steps<L>,
    ) -> Result<(), Memory>
        requires stands { Stands R.room R.Holds self.old }
        requires happen { IfSome (find (has_id room) self.old.registry.rooms) (λ s. IsTrue (may_happen (R.room s.room) event.now)) }
        requires opens { opens event.now ≡ None }
        requires reserves { reserves event.now ≡ None }
        requires own { IsOwn self.old.conns from }
        requires room { IfSome from (λ c. c.room ≡ room) }
        ensures hub { OnOk result (hub_of R.room self.new ≡ (handled_in R.handled (hub_of R.room self.old) room event.now).0) }
        ensures outs { OnOk result (outs.new ≡ outs.old ++ (handled_in R.handled (hub_of R.room self.old) room event.now).1) }
        ensures stands { OnOk result (Stands R.room R.Holds self.new) }
        ensures cost { steps.new ≤ steps.old + cost_in R.room R.costs self.old.registry.rooms room event.now }
    {
        self.registry.rooms.know();
        let Some(at) = self.locate(room, &from) else {
            return outs.push(HubOut::Refused(Refusal::NoRoom));
        };
        let changed = self.handle_at(at, from, event, outs, steps)?;
        self.registry.dispose_changed(self.alloc, at, changed, outs)
    }

    // The room of an id, which may be that of a connection.
    fn locate(&self, room: Id, from: &Option<Linked>) -> Option<RoomRef>
        ensures { option_map ref_serial result ≡ option_map serial_of (find (has_id room) self.now.registry.rooms) }
    {
        match from {
            Some(linked) => self.registry.rooms.locate_in(linked.slot as usize, room),
            None => self.registry.rooms.locate(room),
        }
    }

    /// An event of the room of a number, which opens nothing, and may come from a connection of it: what the room gives is
    /// told, and the connections that it ends are gone. The room stays, also where no place of it is in use any more. It
    /// answers whether its places may have changed.
    pub fn handle_at<L: Ledger>(
        &mut self,
        at: RoomRef,
        from: Option<Linked>,
        event: &RoomEvent,
        outs: &mut HubOuts,
        steps: &mut Steps<L>,
    ) -> Result<bool, Memory>
        requires order { InOrder R.room R.Holds self.old }
        requires there { IsSome (find_by serial_of at.serial self.old.registry.rooms) }
        requires happen { IfSome (find_by serial_of at.serial self.old.registry.rooms) (λ s. IsTrue (may_happen (R.room s.room) event.now)) }
        requires names { (id : List ℕ) → reserves event.now ≡ Some id → is_id id ≡ true }
        requires homes { (id : List ℕ) → reserves event.now ≡ Some id → room_of_session id self.old.session_rooms ≡ Some at.serial }
        requires own { IsOwn self.old.conns from }
        requires room { IfSome from (λ c. IfSome (find_by serial_of at.serial self.old.registry.rooms) (λ s. c.room ≡ s.id)) }
        ensures ordered { AreOrdered self.old.registry.rooms }
        ensures turned { OnOk result (IfSome (find_by serial_of at.serial self.old.registry.rooms) (λ s. Turned R.room R.is_spent R.handled event.now s self.old self.new outs.old outs.new)) }
        ensures same { IfOk result (λ changed. IfSome (find_by serial_of at.serial self.old.registry.rooms) (λ s. changed ≡ false → (R.handled (R.room s.room) event.now).0.seats ≡ (R.room s.room).seats)) }
        ensures order { OnOk result (InOrder R.room R.Holds self.new) }
        ensures cost { IfSome (find_by serial_of at.serial self.old.registry.rooms) (λ s. steps.new ≤ steps.old + R.costs (R.room s.room) event.now) }
    {
        let Some(id) = self.id_of(at) else {
            return Ok(false);
        };
        let Turn {
            outs: given,
            change,
        } = self.registry.step(self.alloc, at, event, steps)?;
        let sessions = ended(self.alloc, given.as_slice())?;
        tell_all(&self.conns, id, from, given, outs)?;
        end_all(&mut self.conns, id, sessions.as_slice());
        Ok(change.is_some())
    }

    // The id of the room of a number.
    fn id_of(&self, at: RoomRef) -> Option<Id>
        ensures { result ≡ option_map (λ s. s.id) (find_by serial_of at.serial self.now.registry.rooms) }
    {
        match self.registry.rooms.get(at) {
            Some(entry) => Some(entry.id),
            None => None,
        }
    }
}
