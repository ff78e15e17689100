ghost use Rattle.std.specs.Prelude.{◌≡◌, ◌==◌, ◌++◌, [], ◌∷◌, length, map, slice_get, is_ok, is_some, IfErr, if◌then◌else◌, option_copied};
ghost use Rattle.lists.specs.Rising.{RisesFrom, IsAbove, find, after_key, put, remove};
ghost use Rattle.trees.specs.Slots.{AreOwn, item_of, items_in, slot_number};

use crate::holes::{close_holes, drop_last_holes};
use crate::slot::Slot;
use lists::{Keyed, Memory, place_after, search};
use std::alloc::Global;
use std::marker::Model;
use std::mem;

/// A list that rises strictly by a number of its items: one is added behind all others, found by its number, and taken
/// out. Taking out leaves a hole; holes are closed when they are more than the items. An item is found at once where
/// none was left out, else in logarithmic time.
#[derive(Drop)]
pub struct Numbered<T: Keyed> {
    slots: Vec<Slot<T>>,
    // How many of them are no holes.
    len: usize,
}

impl<T: Keyed> Model for Numbered<T> {
    ghost use Rattle.std.specs.Prelude.{◌≡◌, List, length};
    ghost use Rattle.lists.specs.Rising.{RisesFrom};
    ghost use Rattle.trees.specs.Slots.{AreOwn, item_of, items_in, slot_number};

    ghost Value = { List T };

    ghost view = { λ s. items_in s.slots.items };

    ghost invariant = { λ s. RisesFrom slot_number 0 s.slots.items × AreOwn item_of T.key s.slots.items × (s.len ≡ length (items_in s.slots.items)) };
}

impl<T: Keyed> Numbered<T> {
    /// No items. They take no memory.
    pub fn new(alloc: Global) -> Self
        ensures { result ≡ [] }
    {
        Numbered {
            slots: Vec::new(alloc),
            len: 0,
        }
    }

    pub fn len(&self) -> usize
        ensures { result ≡ length self.now }
    {
        self.len
    }

    pub fn is_empty(&self) -> bool
        ensures { result ≡ (length self.now == 0) }
    {
        self.len == 0
    }

    /// The item with this number.
    pub fn get(&self, number: u32) -> Option<&T>
        ensures value { option_copied result ≡ find T.key number self.now }
        ensures rises { RisesFrom T.key 0 self.now }
    {
        found(self.slots.as_slice(), number)
    }

    /// The first item, or the first behind a number. It passes over the holes before it.
    pub fn after(&self, number: Option<u32>) -> Option<&T>
        ensures value { option_copied result ≡ slice_get (after_key T.key number self.now) 0 }
        ensures rises { RisesFrom T.key 0 self.now }
    {
        item_after(self.slots.as_slice(), number)
    }

    /// The number of the item at a place. It passes over all items and holes before it.
    pub fn number_at(&self, place: usize) -> Option<u32>
        ensures number { result ≡ slice_get (map T.key self.now) place }
        ensures rises { RisesFrom T.key 0 self.now }
    {
        let item = nth_item(self.slots.as_slice(), place)?;
        Some(item.key())
    }

    /// Adds an item behind all others. An `Err` changes nothing.
    pub fn push(&mut self, item: T) -> Result<(), Memory>
        requires { IsAbove T.key (T.key item) self.old }
        ensures { self.new ≡ (if is_ok result then self.old ++ item ∷ [] else self.old) }
    {
        match self.push_or_return(item) {
            Ok(()) => Ok(()),
            Err(_) => Err(Memory),
        }
    }

    /// Adds an item behind all others, or answers it where memory is out and changes nothing.
    pub fn push_or_return(&mut self, item: T) -> Result<(), T>
        requires { IsAbove T.key (T.key item) self.old }
        ensures items { self.new ≡ (if is_ok result then self.old ++ item ∷ [] else self.old) }
        ensures err { IfErr result (λ x. x ≡ item) }
    {
        drop_last_holes(&mut self.slots);
        if self.slots.reserve(1).is_err() {
            return Err(item);
        }
        let number = item.key();
        self.slots.push_reserved(Slot {
            number,
            item: Some(item),
        });
        self.len += 1;
        Ok(())
    }

    /// Puts an item in the place of the one with its number, which it answers. Where no item has
    /// the number nothing changes. It takes no memory.
    pub fn replace(&mut self, item: T) -> Option<T>
        ensures replaced { result ≡ find T.key (T.key item) self.old }
        ensures items { self.new ≡ (if is_some (find T.key (T.key item) self.old) then put T.key item self.old else self.old) }
        ensures rises { RisesFrom T.key 0 self.old }
    {
        exchange(&mut self.slots, item)
    }

    /// Takes the item with this number out.
    pub fn remove(&mut self, number: u32) -> Option<T>
        ensures found { result ≡ find T.key number self.old }
        ensures rest { self.new ≡ remove T.key number self.old }
        ensures rises { RisesFrom T.key 0 self.old }
    {
        let item = take_out(&mut self.slots, number)?;
        self.len -= 1;
        if self.slots.len() / 2 > self.len {
            close_holes(&mut self.slots);
        }
        Some(item)
    }

    /// Takes all items out.
    pub fn clear(&mut self)
        ensures { self.new ≡ [] }
    {
        self.slots.clear();
        self.len = 0;
    }
}

// The item of a number.
fn found<T: Keyed>(slots: &[Slot<T>], number: u32) -> Option<&T>
    requires rises { RisesFrom slot_number 0 slots.now }
    requires own { AreOwn item_of T.key slots.now }
    ensures value { option_copied result ≡ find T.key number (items_in slots.now) }
    ensures rises { RisesFrom T.key 0 (items_in slots.now) }
{
    match search(slots, number) {
        Ok(at) => slots[at].item.as_ref(),
        Err(_) => None,
    }
}

// The first item, or the first behind a number.
fn item_after<T: Keyed>(slots: &[Slot<T>], number: Option<u32>) -> Option<&T>
    requires rises { RisesFrom slot_number 0 slots.now }
    requires own { AreOwn item_of T.key slots.now }
    ensures value { option_copied result ≡ slice_get (after_key T.key number (items_in slots.now)) 0 }
    ensures rises { RisesFrom T.key 0 (items_in slots.now) }
{
    let at = place_after(slots, number);
    first_item(&slots[at..])
}

// The first item of slots.
fn first_item<T: Keyed>(slots: &[Slot<T>]) -> Option<&T>
    ensures { option_copied result ≡ slice_get (items_in slots.now) 0 }
{
    for slot in slots {
        if let Some(item) = &slot.item {
            return Some(item);
        }
    }
    None
}

// The item at a place among the items.
fn nth_item<T: Keyed>(slots: &[Slot<T>], place: usize) -> Option<&T>
    ensures { option_copied result ≡ slice_get (items_in slots.now) place }
{
    let mut left = place;
    for slot in slots {
        if let Some(item) = &slot.item {
            if left == 0 {
                return Some(item);
            }
            left -= 1;
        }
    }
    None
}

// Takes the item of a number out. A hole is left.
fn take_out<T: Keyed>(slots: &mut Vec<Slot<T>>, number: u32) -> Option<T>
    requires rises { RisesFrom slot_number 0 slots.old.items }
    requires own { AreOwn item_of T.key slots.old.items }
    ensures found { result ≡ find T.key number (items_in slots.old.items) }
    ensures rest { items_in slots.new.items ≡ remove T.key number (items_in slots.old.items) }
    ensures rises { RisesFrom slot_number 0 slots.new.items }
    ensures own { AreOwn item_of T.key slots.new.items }
    ensures before { RisesFrom T.key 0 (items_in slots.old.items) }
{
    let Ok(at) = search(slots.as_slice(), number) else {
        return None;
    };
    mem::replace(&mut slots[at], Slot { number, item: None }).item
}

// Puts an item in the place of the one with its number, which it answers.
fn exchange<T: Keyed>(slots: &mut Vec<Slot<T>>, item: T) -> Option<T>
    requires rises { RisesFrom slot_number 0 slots.old.items }
    requires own { AreOwn item_of T.key slots.old.items }
    ensures found { result ≡ find T.key (T.key item) (items_in slots.old.items) }
    ensures items { items_in slots.new.items ≡ (if is_some (find T.key (T.key item) (items_in slots.old.items)) then put T.key item (items_in slots.old.items) else items_in slots.old.items) }
    ensures rises { RisesFrom slot_number 0 slots.new.items }
    ensures own { AreOwn item_of T.key slots.new.items }
    ensures before { RisesFrom T.key 0 (items_in slots.old.items) }
{
    let number = item.key();
    let Ok(at) = search(slots.as_slice(), number) else {
        return None;
    };
    if slots[at].item.is_none() {
        return None;
    }
    let slot = Slot {
        number,
        item: Some(item),
    };
    mem::replace(&mut slots[at], slot).item
}
