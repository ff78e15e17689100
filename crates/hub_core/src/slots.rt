//! Rooms by their numbers and by their slots.
ghost use Rattle.std.specs.Prelude.{◌≡◌, ◌+◌, ◌≤◌, ◌++◌, ◌∷◌, [], None, Some, false, option_copied, slice_get, IfOk, IfSome, IsSome, IsTrue, OnOk, OnErr};
ghost use Rattle.lists.specs.Rising.{IsAbove, RisesFrom, find as find_by, put, remove};
ghost use Rattle.slab.specs.Slab.{get};
ghost use Rattle.room_laws.specs.Places.{may_happen};
ghost use Rattle.hub_core.specs.RoomEntry.{IsExchanged, IsStepped, serial_of};
ghost use Rattle.hub_core.specs.Slots.{AreSlots, IsSlotOf, in_slots};
ghost use Rattle.hub_core.specs.Statuses.{Changes};

use crate::entry::{Boxed, RoomEntry};
use crate::status::Turn;
use lists::Memory;
use room_like::RoomLike;
use room_model::RoomEvent;
use slab::Slab;
use std::alloc::Global;
use std::collections::BTreeMap;
use std::marker::Model;
use std::sync::ledger::Ledger;
use steps::Steps;

/// A room by its number in the order of creation, with the slot in which it is looked for first.
#[derive(Clone, Copy)]
pub struct RoomRef {
    pub serial: u64,
    pub slot: usize,
}

/// Rooms that rise by their numbers. One is found at once by its slot, and by its number in logarithmic time.
#[derive(Drop)]
pub struct Slots<R> {
    slots: Slab<Boxed<R>>,
    by_serial: BTreeMap<u64, usize>,
}

impl<R> Model for Slots<R> {
    ghost use Rattle.std.specs.Prelude.{List};
    ghost use Rattle.slab.specs.Slab.{get};
    ghost use Rattle.hub_core.specs.declared.entry.RoomEntry.{RoomEntry};
    ghost use Rattle.hub_core.specs.Slots.{AreSlots, in_slots};

    ghost Value = { List (RoomEntry R) };

    ghost view = { λ s. in_slots (get s.slots) s.by_serial.entries };

    ghost invariant = { λ s. AreSlots (get s.slots) s.by_serial.entries };
}

impl<R> Slots<R> {
    /// No rooms. They take no memory.
    pub fn new(alloc: Global) -> Slots<R>
        ensures { result ≡ [] }
    {
        Slots {
            slots: Slab::new(alloc),
            by_serial: BTreeMap::new(alloc),
        }
    }

    /// The rooms rise by their numbers. It does nothing else than to say so.
    pub fn know(&self)
        ensures { RisesFrom serial_of 0 self.now }
    {
        let _len = self.by_serial.len();
    }

    /// The room of a number.
    pub fn get(&self, at: RoomRef) -> Option<&RoomEntry<R>>
        ensures { option_copied result ≡ find_by serial_of at.serial self.now }
    {
        let slot = slot_of(&self.slots, &self.by_serial, at)?;
        match self.slots.get(slot) {
            Some(boxed) => Some(boxed.get()),
            None => None,
        }
    }

    /// The room in a slot.
    pub fn in_slot(&self, slot: usize) -> Option<&RoomEntry<R>>
        ensures { IfSome result (λ s. find_by serial_of s.now.serial self.now ≡ Some s.now) }
    {
        match self.slots.get(slot) {
            Some(boxed) => Some(boxed.get()),
            None => None,
        }
    }

    /// A number with the slot of its room, where there is one.
    pub fn reference(&self, serial: u64) -> RoomRef
        ensures { result.serial ≡ serial }
    {
        let slot = self.by_serial.get(&serial).copied().unwrap_or(usize::MAX);
        RoomRef { serial, slot }
    }

    /// The room of a place. It passes over the numbers before it.
    pub fn nth(&self, n: u32) -> Option<&RoomEntry<R>>
        ensures { option_copied result ≡ slice_get self.now n }
    {
        let slot = *self.by_serial.values().nth(n as usize)?;
        match self.slots.get(slot) {
            Some(boxed) => Some(boxed.get()),
            None => None,
        }
    }

    /// Adds a room whose number is above all others, and gives its slot. An `Err` changes nothing.
    pub fn push(&mut self, boxed: Boxed<R>) -> Result<usize, Memory>
    where
        R: Drop,
        requires { IsAbove serial_of boxed.serial self.old }
        ensures rooms { OnOk result (self.new ≡ self.old ++ boxed ∷ []) }
        ensures err { OnErr result (self.new ≡ self.old) }
    {
        let serial = boxed.get().serial;
        let slot = self.slots.insert(boxed)?;
        match self.by_serial.insert(serial, slot) {
            Ok(_) => Ok(slot),
            Err(_) => {
                self.slots.try_remove(slot);
                Err(Memory)
            }
        }
    }

    /// Takes the room of a number out.
    pub fn remove(&mut self, at: RoomRef) -> Option<Boxed<R>>
        ensures found { result ≡ find_by serial_of at.serial self.old }
        ensures rest { self.new ≡ remove serial_of at.serial self.old }
    {
        let slot = self.by_serial.remove(&at.serial)?;
        self.slots.try_remove(slot)
    }
}

impl<R: RoomLike> Slots<R> {
    /// The step of the room of a number.
    pub fn step<L: Ledger>(
        &mut self,
        at: RoomRef,
        event: &RoomEvent,
        steps: &mut Steps<L>,
    ) -> Result<Turn, Memory>
        requires there { IsSome (find_by serial_of at.serial self.old) }
        requires happen { IfSome (find_by serial_of at.serial self.old) (λ s. R.is_spent s.room ≡ false → IsTrue (may_happen (R.room s.room) event.now)) }
        ensures same { IfSome (find_by serial_of at.serial self.old) (λ s. IsExchanged s self.old self.new) }
        ensures outs { IfOk result (λ turn. IfSome (find_by serial_of at.serial self.old) (λ s. turn.outs ≡ (R.handled (R.room s.room) event.now).1)) }
        ensures after { OnOk result (IfSome (find_by serial_of at.serial self.old) (λ s. IsStepped R.room R.is_spent s self.old self.new (R.handled (R.room s.room) event.now).0)) }
        ensures change { IfOk result (λ turn. IfSome (find_by serial_of at.serial self.old) (λ s. IfSome (find_by serial_of at.serial self.new) (λ t. Changes R.room event.now turn.outs s t turn.change))) }
        ensures cost { IfSome (find_by serial_of at.serial self.old) (λ s. steps.new ≤ steps.old + R.costs (R.room s.room) event.now) }
    {
        let Some(slot) = slot_of(&self.slots, &self.by_serial, at) else {
            return Err(Memory);
        };
        let Some(boxed) = self.slots.get_mut(slot) else {
            return Err(Memory);
        };
        let turn = boxed.step(event, steps)?;
        Ok(turn)
    }
}

// The slot of the room of a number: that of the reference, where the room is there.
fn slot_of<R>(
    slots: &Slab<Boxed<R>>,
    by_serial: &BTreeMap<u64, usize>,
    at: RoomRef,
) -> Option<usize>
    requires { AreSlots (get slots.now) by_serial.now.entries }
    ensures { IsSlotOf (get slots.now) by_serial.now.entries at.serial result }
{
    match slots.get(at.slot) {
        Some(boxed) if boxed.get().serial == at.serial => Some(at.slot),
        _ => by_serial.get(&at.serial).copied(),
    }
}
