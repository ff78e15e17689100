//! Places by a key of their entries.
ghost use Rattle.std.specs.Prelude.{◌≡◌, ℕ, ◌≤◌, ◌<◌, ◌+◌, ◌&&◌, ◌||◌, ◌==◌, [], not, nat_lt, length, IfOk, if◌then◌else◌};
ghost use Rattle.seat_ledger.specs.Slots.{has_slot, is_key, one_of, HasSlot, IsOnlyKey, IsFoundSlot, IsFree, IsLeastSlot};

use crate::slot::Slot;
use crate::slots::Slots;
use schema_model::Memory;
use std::alloc::Global;
use std::marker::Model;

/// The places of entries under a key of theirs, rising by key and then by place, in memory that is taken once. A key is
/// found in logarithmic time.
#[derive(Drop)]
pub struct Index {
    slots: Slots,
}

impl Model for Index {
    ghost use Rattle.seat_ledger.specs.Slots.{IndexState, IsSorted};

    ghost Value = { IndexState };

    ghost view = { λ i. i.slots };

    ghost invariant = { λ i. IsSorted i.slots.slots };
}

impl Index {
    /// No slots, of no entries, and room for so many.
    pub fn new(alloc: Global, room: usize) -> Result<Index, Memory>
        ensures { IfOk result (λ i. (i.slots ≡ []) × (i.count ≡ 0) × (room ≤ i.room)) }
    {
        Ok(Index {
            slots: Slots::new(alloc, room)?,
        })
    }

    /// One more entry, which has no key.
    pub fn grow(&mut self)
        requires { self.old.count < self.old.room }
        ensures slots { self.new.slots ≡ self.old.slots }
        ensures count { self.new.count ≡ self.old.count + 1 }
        ensures kept { self.old.room ≤ self.new.room }
    {
        self.slots.grow();
    }

    /// Adds the place of an entry under its key, where it has one.
    pub fn add(&mut self, key: Option<u128>, at: u32)
        requires entry { at < self.old.count }
        requires room { length self.old.slots + one_of key ≤ self.old.room }
        requires free { IsFree at self.old.slots }
        ensures slots { (q p : ℕ) → has_slot q p self.new.slots ≡ (has_slot q p self.old.slots || ((p == at) && is_key q key)) }
        ensures length { length self.new.slots ≡ length self.old.slots + one_of key }
        ensures count { self.new.count ≡ self.old.count }
        ensures kept { self.old.room ≤ self.new.room }
    {
        if let Some(key) = key {
            let slot = Slot { key, at };
            let place = self.slots.place_of(slot);
            self.slots.insert(place, slot);
        }
    }

    /// An entry has another key, or none, or has one where it had none.
    pub fn exchange(&mut self, old: Option<u128>, new: Option<u128>, at: u32)
        requires entry { at < self.old.count }
        requires own { IsOnlyKey old at self.old.slots }
        requires room { length self.old.slots + one_of new ≤ self.old.room + one_of old }
        ensures slots { (q p : ℕ) → has_slot q p self.new.slots ≡ (if p == at then is_key q new else has_slot q p self.old.slots) }
        ensures length { length self.new.slots + one_of old ≡ length self.old.slots + one_of new }
        ensures count { self.new.count ≡ self.old.count }
        ensures kept { self.old.room ≤ self.new.room }
    {
        if old != new {
            self.take_out(old, at);
            self.add(new, at);
        }
    }

    /// An entry goes, and the places behind its own move down.
    pub fn remove(&mut self, key: Option<u128>, at: u32)
        requires entry { at < self.old.count }
        requires own { IsOnlyKey key at self.old.slots }
        ensures slots { (q p : ℕ) → has_slot q p self.new.slots ≡ has_slot q (if nat_lt p at then p else p + 1) self.old.slots }
        ensures length { length self.new.slots + one_of key ≡ length self.old.slots }
        ensures count { self.new.count + 1 ≡ self.old.count }
        ensures kept { self.old.room ≤ self.new.room }
    {
        self.take_out(key, at);
        self.close(at);
    }

    /// The first place under a key.
    pub fn find(&self, key: u128) -> Option<u32>
        ensures { IsFoundSlot key self.now.slots result }
    {
        let place = self.slots.place_of(Slot { key, at: 0 });
        let slot = self.slots.get(place)?;
        if slot.key == key { Some(slot.at) } else { None }
    }

    /// The slot with the least key; of several the one of the first place.
    pub fn least(&self) -> Option<Slot>
        ensures { IsLeastSlot self.now.slots result }
    {
        self.slots.get(0)
    }

    // Takes the place of an entry out, which stands under its key, where it has one.
    fn take_out(&mut self, key: Option<u128>, at: u32)
        requires { HasSlot key at self.old.slots }
        ensures slots { (q p : ℕ) → has_slot q p self.new.slots ≡ (has_slot q p self.old.slots && not ((p == at) && is_key q key)) }
        ensures length { length self.new.slots + one_of key ≡ length self.old.slots }
        ensures count { self.new.count ≡ self.old.count }
        ensures kept { self.old.room ≤ self.new.room }
    {
        if let Some(key) = key {
            let place = self.slots.place_of(Slot { key, at });
            self.slots.remove(place);
        }
    }

    // The places behind one that goes move down.
    fn close(&mut self, at: u32)
        requires entry { at < self.old.count }
        requires free { IsFree at self.old.slots }
        ensures slots { (q p : ℕ) → has_slot q p self.new.slots ≡ has_slot q (if nat_lt p at then p else p + 1) self.old.slots }
        ensures length { length self.new.slots ≡ length self.old.slots }
        ensures count { self.new.count + 1 ≡ self.old.count }
        ensures kept { self.old.room ≤ self.new.room }
    {
        self.slots.close(at);
    }
}
