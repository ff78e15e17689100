ghost use Rattle.std.specs.Prelude.{◌≡◌, [], length, map, option_map, slice_get, Some, None, IfOk, Ok, option_copied};
ghost use Rattle.lists.specs.Rising.{RisesFrom, after_key, find};
ghost use Rattle.state_model.specs.declared.row.SetItem.{SetItem};
ghost use Rattle.collection_ops.specs.Bodies.{SetState, set_number, value_item, set_add, set_remove, Gives, Exactly, IsSetKept};
ghost use Rattle.collection_ops.specs.Indexes.{IsWithoutValue};

use crate::fault::ItemFault;
use crate::value_index::ValueIndex;
use lists::{Copied, Memory};
use schema_model::{LAST_NUMBER, Value};
use state_model::{SetItem, SetItems};
use std::alloc::Global;
use std::marker::Model;
use trees::Numbered;

/// The items of a set, found by number and by value. A call takes logarithmic time, but for
/// `number_at`, `clear` and `copy_items`; `after` passes over what was taken out before what it answers.
#[derive(Drop)]
pub struct SetBody {
    alloc: Global,
    items: Numbered<SetItem>,
    // Where the item of each value is. A text stands once, in its item, but for few.
    index: ValueIndex,
    // How many numbers were given.
    given: u32,
}

impl Model for SetBody {
    ghost use Rattle.collection_ops.specs.Bodies.{SetState, IsSetKept};
    ghost use Rattle.collection_ops.specs.Indexes.{IsValueIndex};

    ghost Value = { SetState };

    ghost view = { λ b. record { items = b.items; given = b.given } };

    ghost invariant = { λ b. IsSetKept (record { items = b.items; given = b.given }) × IsValueIndex b.items b.index };
}

impl SetBody {
    /// No items, and no number given. They take no memory.
    pub fn new(alloc: Global) -> Result<SetBody, Memory>
        ensures { result ≡ Ok (record { items = []; given = 0 }) }
    {
        Ok(SetBody {
            alloc,
            items: Numbered::new(alloc),
            index: ValueIndex::new(alloc),
            given: 0,
        })
    }

    pub fn len(&self) -> u32
        ensures { result ≡ length self.now.items }
    {
        self.items.len() as u32
    }

    /// How many item numbers were given: the next new item gets this one.
    pub fn given(&self) -> u32
        ensures { result ≡ self.now.given }
    {
        self.given
    }

    /// The items rise by their numbers, and no value stands twice. It does nothing else than to say so.
    pub fn know_kept(&self)
        ensures { IsSetKept self.now }
    {
        let _ = &self.items;
    }

    /// The value under an item number.
    pub fn get(&self, which: u32) -> Option<&Value>
        ensures { option_copied result ≡ option_map (λ (i : SetItem). i.value) (find set_number which self.now.items) }
    {
        let item = self.items.get(which)?;
        Some(&item.value)
    }

    /// The first item, or the first behind a number.
    pub fn after(&self, number: Option<u32>) -> Option<&SetItem>
        ensures value { option_copied result ≡ slice_get (after_key set_number number self.now.items) 0 }
        ensures rises { RisesFrom set_number 0 self.now.items }
    {
        self.items.after(number)
    }

    /// The n-th item number, counted from 0. It passes over all items before it.
    pub fn number_at(&self, n: u32) -> Option<u32>
        ensures { result ≡ slice_get (map set_number self.now.items) n }
    {
        self.items.number_at(n as usize)
    }

    /// The number of the item of a value.
    pub fn number_of(&self, value: &Value) -> Option<u32>
        ensures { result ≡ option_map set_number (value_item self.now.items value.now) }
    {
        self.index.get(&self.items, value)
    }

    /// Adds an item with a value that isn't there. Answers its number.
    pub fn add(&mut self, value: Value) -> Result<u32, ItemFault>
        ensures { Gives (set_add self.old value) self.old self.new result }
    {
        if self.number_of(&value).is_some() {
            return Err(ItemFault::Present);
        }
        self.add_new(value)
    }

    /// Adds an item with a value of which it is known that it isn't there; see `number_of`. Answers its number.
    pub fn add_new(&mut self, value: Value) -> Result<u32, ItemFault>
        requires { value_item self.old.items value ≡ None }
        ensures { Gives (set_add self.old value) self.old self.new result }
    {
        if self.given > LAST_NUMBER {
            return Err(ItemFault::NumbersSpent);
        }
        let number = self.given;
        self.index.put(self.alloc, &value, number)?;
        match self.items.push_or_return(SetItem { number, value }) {
            Ok(()) => {
                self.given += 1;
                Ok(number)
            }
            Err(item) => {
                take_back(&mut self.index, item);
                Err(ItemFault::Memory)
            }
        }
    }

    /// Takes the item of a value out. Answers its number.
    pub fn remove(&mut self, value: &Value) -> Result<u32, ItemFault>
        ensures { Exactly (set_remove self.old value.now) self.old self.new result }
    {
        match self.number_of(value) {
            Some(number) => self.remove_at(number, value),
            None => Err(ItemFault::NoItem),
        }
    }

    /// Takes the item of a value out, where its number is known; see `number_of`. Answers its number.
    pub fn remove_at(&mut self, number: u32, value: &Value) -> Result<u32, ItemFault>
        requires { option_map set_number (value_item self.old.items value.now) ≡ Some number }
        ensures { Exactly (set_remove self.old value.now) self.old self.new result }
    {
        self.index.remove(value, number);
        self.items.remove(number);
        Ok(number)
    }

    /// Takes all items out. Their numbers aren't given again.
    pub fn clear(&mut self)
        ensures { self.new ≡ record { items = []; given = self.old.given } }
    {
        self.items.clear();
        self.index.clear();
    }

    /// A second list with the same items.
    pub fn copy_items(&self, alloc: Global) -> Result<SetItems, Memory>
        ensures { IfOk result (λ x. x ≡ self.now.items) }
    {
        let mut out = SetItems::new(alloc);
        let mut last = None;
        while let Some(item) = self.items.after(last) {
            last = Some(item.number);
            out.push(item.copy(alloc)?)?;
        }
        Ok(out)
    }
}

// Takes the value of an item out of an index.
fn take_back(index: &mut ValueIndex, item: SetItem)
    ensures { IsWithoutValue index.old index.new item.value item.number }
{
    index.remove(&item.value, item.number);
}
