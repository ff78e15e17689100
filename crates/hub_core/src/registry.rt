//! The rooms of a hub, with what is noted of them.
ghost use Rattle.std.specs.Prelude.{◌≡◌, ◌+◌, ◌≤◌, ◌<◌, ◌++◌, ◌∷◌, [], None, Some, true, false, if◌then◌else◌, length, slice_get, IfNone, IfOk, IfSome, IsSome, IsTrue, OnOk};
ghost use Rattle.std.specs.List.{find};
ghost use Rattle.std.specs.Option.{option_map};
ghost use Rattle.lists.specs.Rising.{IsAbove, find as find_by, remove};
ghost use Rattle.room_model.specs.Room.{RoomValue};
ghost use Rattle.room_laws.specs.Places.{may_happen};
ghost use Rattle.hub_model.specs.HubStep.{disposals, is_needed};
ghost use Rattle.hub_core.specs.Noted.{Exchanged};
ghost use Rattle.hub_core.specs.Lapses.{has_lapse};
ghost use Rattle.hub_core.specs.OpenRooms.{AreEmpty, Relisted, Relists, criteria_key};
ghost use Rattle.hub_core.specs.Registered.{IsAdded, IsKept};
ghost use Rattle.hub_core.specs.RoomEntry.{AreOrdered, IsStepped, has_id, room_in, serial_of};
ghost use Rattle.hub_core.specs.Statuses.{Changes};

use crate::lapses::Lapses;
use crate::open_rooms::{OpenRooms, criteria_key};
use crate::rooms::Rooms;
use crate::slots::RoomRef;
use crate::status::{Change, RoomStatus, Turn};
use hub_model::{HubOut, HubOuts};
use lists::Memory;
use room_like::RoomLike;
use room_model::{RoomEvent, Texts};
use schema_model::Id;
use std::alloc::Global;
use std::sync::ledger::Ledger;
use steps::Steps;

/// Rooms, when something of each lapses, and the open rooms of each definition.
#[derive(Drop)]
pub struct Registry<R> {
    pub rooms: Rooms<R>,
    pub lapses: Lapses,
    pub open_rooms: Vec<OpenRooms>,
}

impl<R: RoomLike> Registry<R> {
    /// No rooms, of so many definitions.
    pub fn new(alloc: Global, defs: usize) -> Result<Registry<R>, Memory>
        ensures rooms { IfOk result (λ g. g.rooms ≡ []) }
        ensures kept { IfOk result (IsKept R.room) }
        ensures count { IfOk result (λ g. length g.open_rooms.items ≡ defs) }
    {
        Ok(Registry {
            rooms: Rooms::new(alloc),
            lapses: Lapses::new(alloc),
            open_rooms: none_open(alloc, defs)?,
        })
    }

    /// The step of the room of a number, which is noted.
    pub fn step<L: Ledger>(
        &mut self,
        alloc: Global,
        at: RoomRef,
        event: &RoomEvent,
        steps: &mut Steps<L>,
    ) -> Result<Turn, Memory>
        requires kept { IsKept R.room self.old }
        requires holds { IfSome (find_by serial_of at.serial self.old.rooms) (λ s. R.Holds (R.room s.room)) }
        requires there { IsSome (find_by serial_of at.serial self.old.rooms) }
        requires happen { IfSome (find_by serial_of at.serial self.old.rooms) (λ s. IsTrue (may_happen (R.room s.room) event.now)) }
        ensures ordered { AreOrdered self.old.rooms }
        ensures outs { IfOk result (λ turn. IfSome (find_by serial_of at.serial self.old.rooms) (λ s. turn.outs ≡ (R.handled (R.room s.room) event.now).1)) }
        ensures after { OnOk result (IfSome (find_by serial_of at.serial self.old.rooms) (λ s. IsStepped R.room R.is_spent s self.old.rooms self.new.rooms (R.handled (R.room s.room) event.now).0)) }
        ensures change { IfOk result (λ turn. IfSome (find_by serial_of at.serial self.old.rooms) (λ s. IfSome (find_by serial_of at.serial self.new.rooms) (λ t. Changes R.room event.now turn.outs s t turn.change))) }
        ensures kept { OnOk result (IsKept R.room self.new) }
        ensures count { OnOk result (length self.new.open_rooms.items ≡ length self.old.open_rooms.items) }
        ensures cost { IfSome (find_by serial_of at.serial self.old.rooms) (λ s. steps.new ≤ steps.old + R.costs (R.room s.room) event.now) }
    {
        let turn = self.rooms.step(at, event, steps)?;
        if let Some(change) = turn.change {
            self.note(alloc, at, change)?;
        }
        Ok(turn)
    }

    // Notes what the room of a number shows now.
    fn note(&mut self, alloc: Global, at: RoomRef, change: Change) -> Result<(), Memory>
        requires there { IsSome (find_by serial_of at.serial self.old.rooms) }
        requires lapse { IfSome change.was.lapse (λ moment. has_lapse self.old.lapses moment at.serial ≡ true) }
        requires def { IfSome (find_by serial_of at.serial self.old.rooms) (λ t. t.def < length self.old.open_rooms.items) }
        ensures rooms { self.new.rooms ≡ self.old.rooms }
        ensures lapses { OnOk result (Exchanged at.serial change.was.lapse change.now.lapse self.old.lapses self.new.lapses) }
        ensures listed { OnOk result (IfSome (find_by serial_of at.serial self.old.rooms) (λ t. Relists t change.was.is_open change.now.is_open self.old.open_rooms.items self.new.open_rooms.items)) }
    {
        self.lapses
            .change(at.serial, change.was.lapse, change.now.lapse)?;
        match (change.was.is_open, change.now.is_open) {
            (false, true) => self.list(alloc, at),
            (true, false) => self.unlist(alloc, at),
            _ => Ok(()),
        }
    }

    // Adds the room of a number to the open ones.
    fn list(&mut self, alloc: Global, at: RoomRef) -> Result<(), Memory>
        requires { IfSome (find_by serial_of at.serial self.old.rooms) (λ t. t.def < length self.old.open_rooms.items) }
        ensures rooms { self.new.rooms ≡ self.old.rooms }
        ensures lapses { self.new.lapses ≡ self.old.lapses }
        ensures listed { OnOk result (IfSome (find_by serial_of at.serial self.old.rooms) (λ t. Relisted t.def (criteria_key t.criteria) t.serial true self.old.open_rooms.items self.new.open_rooms.items)) }
    {
        let Some(entry) = self.rooms.get(at) else {
            return Ok(());
        };
        let key = criteria_key(alloc, entry.criteria.as_slice())?;
        add_open(&mut self.open_rooms, alloc, entry.def, key, entry.serial)
    }

    // Takes the room of a number from the open ones.
    fn unlist(&mut self, alloc: Global, at: RoomRef) -> Result<(), Memory>
        requires { IfSome (find_by serial_of at.serial self.old.rooms) (λ t. t.def < length self.old.open_rooms.items) }
        ensures rooms { self.new.rooms ≡ self.old.rooms }
        ensures lapses { self.new.lapses ≡ self.old.lapses }
        ensures listed { OnOk result (IfSome (find_by serial_of at.serial self.old.rooms) (λ t. Relisted t.def (criteria_key t.criteria) t.serial false self.old.open_rooms.items self.new.open_rooms.items)) }
    {
        let Some(entry) = self.rooms.get(at) else {
            return Ok(());
        };
        let key = criteria_key(alloc, entry.criteria.as_slice())?;
        take_open(&mut self.open_rooms, entry.def, &key, entry.serial);
        Ok(())
    }

    /// Adds a room of a definition, with the criteria of its creation.
    pub fn push(
        &mut self,
        alloc: Global,
        id: Id,
        def: u32,
        criteria: Texts,
        room: R,
    ) -> Result<RoomRef, Memory>
        requires kept { IsKept R.room self.old }
        requires new { find (has_id id) self.old.rooms ≡ None }
        requires def { def < length self.old.open_rooms.items }
        ensures above { IfOk result (λ at. IsAbove serial_of at.serial self.old.rooms) }
        ensures rooms { IfOk result (λ at. IsAdded room id def criteria at.serial self.old.rooms self.new.rooms) }
        ensures kept { OnOk result (IsKept R.room self.new) }
        ensures count { OnOk result (length self.new.open_rooms.items ≡ length self.old.open_rooms.items) }
    {
        let status = RoomStatus::of(&room);
        let at = self.rooms.push(alloc, id, def, criteria, room, status)?;
        if status.is_open {
            self.list(alloc, at)?;
        }
        self.lapses.change(at.serial, None, status.lapse)?;
        Ok(at)
    }

    /// Takes the room of a number out.
    pub fn remove(&mut self, alloc: Global, at: RoomRef) -> Result<(), Memory>
        requires kept { IsKept R.room self.old }
        ensures ordered { AreOrdered self.old.rooms }
        ensures rooms { OnOk result (self.new.rooms ≡ remove serial_of at.serial self.old.rooms) }
        ensures kept { OnOk result (IsKept R.room self.new) }
        ensures count { OnOk result (length self.new.open_rooms.items ≡ length self.old.open_rooms.items) }
    {
        let Some(entry) = self.rooms.get(at) else {
            return Ok(());
        };
        let status = entry.status;
        self.lapses.take_one(at.serial, status.lapse);
        if status.is_open {
            self.unlist(alloc, at)?;
        }
        self.rooms.remove(at);
        Ok(())
    }

    /// Takes the room of a number out where no place of it is in use, and gives out that it did.
    pub fn dispose(&mut self, alloc: Global, at: RoomRef, outs: &mut HubOuts) -> Result<(), Memory>
        requires kept { IsKept R.room self.old }
        ensures ordered { AreOrdered self.old.rooms }
        ensures rooms { OnOk result (IfSome (find_by serial_of at.serial self.old.rooms) (λ t. self.new.rooms ≡ (if is_needed (room_in R.room t) then self.old.rooms else remove serial_of at.serial self.old.rooms))) }
        ensures outs { OnOk result (IfSome (find_by serial_of at.serial self.old.rooms) (λ t. outs.new ≡ outs.old ++ disposals (room_in R.room t ∷ []))) }
        ensures kept { OnOk result (IsKept R.room self.new) }
        ensures count { OnOk result (length self.new.open_rooms.items ≡ length self.old.open_rooms.items) }
    {
        let Some(entry) = self.rooms.get(at) else {
            return Ok(());
        };
        if entry.room.in_use() > 0 {
            return Ok(());
        }
        outs.push(HubOut::Disposed(entry.id))?;
        self.remove(alloc, at)
    }

    /// The same behind an event that may have changed the room's places: where it didn't, one of them is in use.
    pub fn dispose_changed(
        &mut self,
        alloc: Global,
        at: RoomRef,
        changed: bool,
        outs: &mut HubOuts,
    ) -> Result<(), Memory>
        requires kept { IsKept R.room self.old }
        requires needed { changed ≡ false → IfSome (find_by serial_of at.serial self.old.rooms) (λ t. is_needed (room_in R.room t) ≡ true) }
        ensures ordered { AreOrdered self.old.rooms }
        ensures rooms { OnOk result (IfSome (find_by serial_of at.serial self.old.rooms) (λ t. self.new.rooms ≡ (if is_needed (room_in R.room t) then self.old.rooms else remove serial_of at.serial self.old.rooms))) }
        ensures outs { OnOk result (IfSome (find_by serial_of at.serial self.old.rooms) (λ t. outs.new ≡ outs.old ++ disposals (room_in R.room t ∷ []))) }
        ensures kept { OnOk result (IsKept R.room self.new) }
        ensures count { OnOk result (length self.new.open_rooms.items ≡ length self.old.open_rooms.items) }
    {
        if changed {
            return self.dispose(alloc, at, outs);
        }
        self.rooms.know();
        Ok(())
    }
}

// So many definitions without open rooms.
fn none_open(alloc: Global, count: usize) -> Result<Vec<OpenRooms>, Memory>
    ensures count { IfOk result (λ opens. length opens.items ≡ count) }
    ensures empty { IfOk result (λ opens. AreEmpty opens.items) }
{
    let mut open_rooms = Vec::new(alloc);
    for _ in 0..count {
        open_rooms.push(OpenRooms::new(alloc))?;
    }
    Ok(open_rooms)
}

// Adds a room of a number to the open ones of its definition, under a key.
fn add_open(
    open_rooms: &mut Vec<OpenRooms>,
    alloc: Global,
    def: u32,
    key: Vec<u8>,
    serial: u64,
) -> Result<(), Memory>
    requires { def < length open_rooms.old.items }
    ensures { OnOk result (Relisted def key.items serial true open_rooms.old.items open_rooms.new.items) }
{
    open_rooms[def as usize].add(alloc, key, serial)
}

// Takes a room of a number from the open ones of its definition, under a key.
fn take_open(open_rooms: &mut Vec<OpenRooms>, def: u32, key: &[u8], serial: u64)
    requires { def < length open_rooms.old.items }
    ensures { Relisted def key.now serial false open_rooms.old.items open_rooms.new.items }
{
    open_rooms[def as usize].take(key, serial);
}
