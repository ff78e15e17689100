//! Slots in memory that is taken once.
ghost use Rattle.std.specs.Prelude.{◌≡◌, ℕ, ◌≤◌, ◌<◌, ◌+◌, [], Some, length, map, slice_get, IfOk};
ghost use Rattle.std.specs.List.{insert, prefix_len, remove};
ghost use Rattle.seat_ledger.specs.declared.slot.Slot.{Slot};
ghost use Rattle.seat_ledger.specs.Slots.{closed_place, closed_slot, precedes, IsFree, IsSorted};

use crate::slot::Slot;
use schema_model::Memory;
use std::alloc::Global;
use std::marker::Model;

/// A list of slots, of so many entries. The key of an entry stands at its place, and the slots are a list of places, in
/// memory that is taken once: places alone are moved and renumbered, four bytes each.
#[derive(Drop)]
pub struct Slots {
    keys: Vec<u128>,
    places: Vec<u32>,
}

impl Model for Slots {
    ghost use Rattle.std.specs.Prelude.{length, min, vec_capacity};
    ghost use Rattle.seat_ledger.specs.Slots.{IndexState};
    ghost use Rattle.seat_ledger.specs.Keyed.{keyed_places, AreBelow};

    ghost Value = { IndexState };

    ghost view = { λ s. record { slots = keyed_places s.keys.items s.places.items; count = length s.keys.items; room = min (vec_capacity s.keys) (vec_capacity s.places) } };

    ghost invariant = { λ s. AreBelow (length s.keys.items) s.places.items };
}

impl Slots {
    /// No slots, of no entries, and room for so many.
    pub fn new(alloc: Global, room: usize) -> Result<Slots, Memory>
        ensures { IfOk result (λ s. (s.slots ≡ []) × (s.count ≡ 0) × (room ≤ s.room)) }
    {
        Ok(Slots {
            keys: Vec::with_capacity(alloc, room)?,
            places: Vec::with_capacity(alloc, room)?,
        })
    }

    /// One more entry, which has no slot.
    pub fn grow(&mut self)
        requires { self.old.count < self.old.room }
        ensures slots { self.new.slots ≡ self.old.slots }
        ensures count { self.new.count ≡ self.old.count + 1 }
        ensures kept { self.old.room ≤ self.new.room }
    {
        self.keys.push(0).unwrap();
    }

    /// The slot at a place of the list.
    pub fn get(&self, place: usize) -> Option<Slot>
        ensures { result ≡ slice_get self.now.slots place }
    {
        let at = copied_at(&self.places, place)?;
        let key = self.keys[at as usize];
        Some(Slot { key, at })
    }

    /// Puts the slot of an entry that has none in at a place of the list.
    pub fn insert(&mut self, place: usize, slot: Slot)
        requires entry { slot.at < self.old.count }
        requires free { IsFree slot.at self.old.slots }
        requires within { place ≤ length self.old.slots }
        requires room { length self.old.slots < self.old.room }
        ensures slots { self.new.slots ≡ insert self.old.slots place slot }
        ensures count { self.new.count ≡ self.old.count }
        ensures kept { self.old.room ≤ self.new.room }
    {
        self.keys[slot.at as usize] = slot.key;
        self.places.insert(place, slot.at).unwrap();
    }

    /// Takes the slot at a place of the list out.
    pub fn remove(&mut self, place: usize)
        requires { place < length self.old.slots }
        ensures slots { self.new.slots ≡ remove self.old.slots place }
        ensures count { self.new.count ≡ self.old.count }
        ensures kept { self.old.room ≤ self.new.room }
    {
        self.places.remove(place);
    }

    /// An entry that has no slot goes, and those behind it move down.
    pub fn close(&mut self, gone: u32)
        requires entry { gone < self.old.count }
        requires free { IsFree gone self.old.slots }
        ensures slots { self.new.slots ≡ map (closed_slot gone) self.old.slots }
        ensures count { self.new.count + 1 ≡ self.old.count }
        ensures kept { self.old.room ≤ self.new.room }
    {
        close_all(&mut self.places, gone);
        self.keys.remove(gone as usize);
    }

    /// How many slots stand before one.
    pub fn place_of(&self, slot: Slot) -> usize
        requires { IsSorted self.now.slots }
        ensures { result ≡ prefix_len (λ s. precedes s slot) self.now.slots }
    {
        let mut low = 0;
        let mut high = self.places.len();
        while low < high {
            let middle = low + (high - low) / 2;
            if self.is_before(middle, slot) {
                low = middle + 1;
            } else {
                high = middle;
            }
        }
        low
    }

    // Whether the slot at a place of the list stands before another.
    fn is_before(&self, place: usize, slot: Slot) -> bool
        requires { place < length self.now.slots }
        ensures { (s : Slot) → slice_get self.now.slots place ≡ Some s → result ≡ precedes s slot }
    {
        let at = self.places[place];
        comes_before(self.keys[at as usize], at, slot)
    }
}

// Whether a key and a place stand before a slot.
fn comes_before(key: u128, at: u32, slot: Slot) -> bool
    ensures { result ≡ precedes (record { key = key; at = at }) slot }
{
    key < slot.key || (key == slot.key && at < slot.at)
}

// The number at a place of a list.
fn copied_at(numbers: &[u32], place: usize) -> Option<u32>
    ensures { result ≡ slice_get numbers.now place }
{
    numbers.get(place).copied()
}

// The places behind one that goes move down.
fn close_all(places: &mut [u32], gone: u32)
    ensures { places.new ≡ map (closed_place gone) places.old }
{
    for place in places.iter_mut() {
        *place = closed_place(*place, gone);
    }
}

// A place, as its entry moves down behind one that goes.
fn closed_place(place: u32, gone: u32) -> u32
    ensures { result ≡ closed_place gone place }
{
    place - u32::from(gone < place)
}
