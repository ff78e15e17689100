//! The rooms of a hub.
ghost use Rattle.std.specs.Prelude.{◌≡◌, ◌+◌, ◌≤◌, ◌++◌, ◌∷◌, [], None, Some, false, option_copied, slice_get, IfOk, IfSome, IsSome, IsTrue, OnOk};
ghost use Rattle.std.specs.List.{find};
ghost use Rattle.std.specs.Option.{option_map};
ghost use Rattle.lists.specs.Rising.{IsAbove, find as find_by, remove};
ghost use Rattle.room_laws.specs.Places.{may_happen};
ghost use Rattle.hub_core.specs.RoomEntry.{AreOrdered, IsStepped, has_id, ref_serial, serial_of};
ghost use Rattle.hub_core.specs.SessionRooms.{has_in};
ghost use Rattle.hub_core.specs.Statuses.{Changes};

use crate::entry::{Boxed, RoomEntry};
use crate::slots::{RoomRef, Slots};
use crate::status::{RoomStatus, Turn};
use lists::Memory;
use room_like::RoomLike;
use room_model::{RoomEvent, Texts};
use schema_model::Id;
use std::alloc::Global;
use std::collections::BTreeMap;
use std::marker::Model;
use std::sync::ledger::Ledger;
use steps::Steps;

/// Rooms in the order of their creation. One is found by its id and by its number in logarithmic time, and at once where its
/// slot is known.
#[derive(Drop)]
pub struct Rooms<R> {
    slots: Slots<R>,
    by_id: BTreeMap<[u8; 9], RoomRef>,
    next: u64,
}

impl<R> Model for Rooms<R> {
    ghost use Rattle.std.specs.Prelude.{List};
    ghost use Rattle.hub_core.specs.declared.entry.RoomEntry.{RoomEntry};
    ghost use Rattle.hub_core.specs.RoomEntry.{AreRooms};

    ghost Value = { List (RoomEntry R) };

    ghost view = { λ r. r.slots };

    ghost invariant = { λ r. AreRooms r.slots r.by_id.entries r.next };
}

impl<R> Rooms<R> {
    /// No rooms. They take no memory.
    pub fn new(alloc: Global) -> Rooms<R>
        ensures { result ≡ [] }
    {
        Rooms {
            slots: Slots::new(alloc),
            by_id: BTreeMap::new(alloc),
            next: 0,
        }
    }

    /// The rooms rise by their numbers, and their ids differ. It does nothing else than to say so.
    pub fn know(&self)
        ensures { AreOrdered self.now }
    {
        self.slots.know();
    }

    /// The room of an id.
    pub fn locate(&self, id: Id) -> Option<RoomRef>
        ensures { option_map ref_serial result ≡ option_map serial_of (find (has_id id) self.now) }
    {
        self.by_id.get(&bytes_of(id)).copied()
    }

    /// The room of an id, which may stand in a slot: that is looked at first.
    pub fn locate_in(&self, slot: usize, id: Id) -> Option<RoomRef>
        ensures { option_map ref_serial result ≡ option_map serial_of (find (has_id id) self.now) }
    {
        match self.slots.in_slot(slot) {
            Some(entry) if entry.id.0 == id.0 => Some(RoomRef {
                serial: entry.serial,
                slot,
            }),
            _ => self.locate(id),
        }
    }

    /// A number with the slot of its room, where there is one.
    pub fn reference(&self, serial: u64) -> RoomRef
        ensures { result.serial ≡ serial }
    {
        self.slots.reference(serial)
    }

    /// The room of a number.
    pub fn get(&self, at: RoomRef) -> Option<&RoomEntry<R>>
        ensures value { option_copied result ≡ find_by serial_of at.serial self.now }
        ensures ordered { AreOrdered self.now }
    {
        self.know();
        self.slots.get(at)
    }

    /// The room of an id.
    pub fn find(&self, id: Id) -> Option<&RoomEntry<R>>
        ensures value { option_copied result ≡ find (has_id id) self.now }
        ensures ordered { AreOrdered self.now }
    {
        self.know();
        let Some(at) = self.locate(id) else {
            return None;
        };
        self.get(at)
    }

    /// The room of a place. It passes over the rooms before it.
    pub fn nth(&self, n: u32) -> Option<&RoomEntry<R>>
        ensures { option_copied result ≡ slice_get self.now n }
    {
        self.slots.nth(n)
    }

    /// Adds a room behind all others. After 2^64 - 1 rooms there is no number left, which is answered as out of memory.
    pub fn push(
        &mut self,
        alloc: Global,
        id: Id,
        def: u32,
        criteria: Texts,
        room: R,
        status: RoomStatus,
    ) -> Result<RoomRef, Memory>
    where
        R: Drop,
        requires new { find (has_id id) self.old ≡ None }
        ensures above { IfOk result (λ at. IsAbove serial_of at.serial self.old) }
        ensures rooms { IfOk result (λ at. self.new ≡ self.old ++ record { serial = at.serial; def = def; id = id; status = status; room = room; criteria = criteria } ∷ []) }
    {
        let serial = self.next;
        let Some(next) = serial.checked_add(1) else {
            return Err(Memory);
        };
        let boxed = Boxed::new(
            alloc,
            RoomEntry {
                serial,
                def,
                id,
                status,
                room,
                criteria,
            },
        )?;
        let slot = self.slots.push(boxed)?;
        let at = RoomRef { serial, slot };
        match self.by_id.insert(bytes_of(id), at) {
            Ok(_) => {
                self.next = next;
                Ok(at)
            }
            Err(_) => {
                self.slots.remove(at);
                Err(Memory)
            }
        }
    }

    /// Takes the room of a number out.
    pub fn remove(&mut self, at: RoomRef)
    where
        R: Drop,
        ensures { self.new ≡ remove serial_of at.serial self.old }
    {
        self.know();
        if let Some(boxed) = self.slots.remove(at) {
            self.by_id.remove(&bytes_of(boxed.id()));
        }
    }
}

impl<R: RoomLike> Rooms<R> {
    /// Whether the room of a number has a session.
    pub fn has_session(&self, serial: u64, session: Id) -> bool
        ensures { result ≡ has_in R.room self.now serial session }
    {
        match self.get(self.reference(serial)) {
            Some(entry) => entry.room.has_session(session),
            None => false,
        }
    }

    /// The step of the room of a number.
    pub fn step<L: Ledger>(
        &mut self,
        at: RoomRef,
        event: &RoomEvent,
        steps: &mut Steps<L>,
    ) -> Result<Turn, Memory>
        requires there { IsSome (find_by serial_of at.serial self.old) }
        requires happen { IfSome (find_by serial_of at.serial self.old) (λ s. R.is_spent s.room ≡ false → IsTrue (may_happen (R.room s.room) event.now)) }
        ensures ordered { AreOrdered self.old }
        ensures outs { IfOk result (λ turn. IfSome (find_by serial_of at.serial self.old) (λ s. turn.outs ≡ (R.handled (R.room s.room) event.now).1)) }
        ensures after { OnOk result (IfSome (find_by serial_of at.serial self.old) (λ s. IsStepped R.room R.is_spent s self.old self.new (R.handled (R.room s.room) event.now).0)) }
        ensures change { IfOk result (λ turn. IfSome (find_by serial_of at.serial self.old) (λ s. IfSome (find_by serial_of at.serial self.new) (λ t. Changes R.room event.now turn.outs s t turn.change))) }
        ensures cost { IfSome (find_by serial_of at.serial self.old) (λ s. steps.new ≤ steps.old + R.costs (R.room s.room) event.now) }
    {
        self.know();
        let turn = self.slots.step(at, event, steps)?;
        Ok(turn)
    }
}

/// An id as a key.
pub fn bytes_of(id: Id) -> [u8; 9]
    ensures { result ≡ id }
{
    let Id(bytes) = id;
    bytes
}
