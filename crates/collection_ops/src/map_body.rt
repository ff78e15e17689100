ghost use Rattle.std.specs.Prelude.{◌≡◌, ℕ, List, [], length, map, option_map, slice_get, Some, None, Ok, IfOk, option_copied};
ghost use Rattle.lists.specs.Rising.{RisesFrom, after_key, find};
ghost use Rattle.state_model.specs.declared.row.MapItem.{MapItem};
ghost use Rattle.trees.specs.Texts.{text_hash, has_text, IsWithout};
ghost use Rattle.collection_ops.specs.Bodies.{MapState, map_number, key_item, map_put, map_remove, Gives, Exactly, IsMapKept};
ghost use Rattle.collection_ops.specs.Indexes.{key_texts};

use crate::fault::ItemFault;
use lists::{Copied, Memory, Text};
use schema_model::{LAST_NUMBER, Value};
use state_model::{MapItem, MapItems};
use std::alloc::Global;
use std::marker::Model;
use trees::{Numbered, TextIndex, text_hash};

/// The items of a map, found by number and by key. A call takes logarithmic time, but for
/// `number_at`, `clear` and `copy_items`; `after` passes over what was taken out before what it answers.
#[derive(Drop)]
pub struct MapBody {
    alloc: Global,
    items: Numbered<MapItem>,
    // Where the item of each key is. A key stands once, in its item, but for few.
    index: TextIndex,
    // How many numbers were given.
    given: u32,
}

impl Model for MapBody {
    ghost use Rattle.collection_ops.specs.Bodies.{MapState, IsMapKept};
    ghost use Rattle.collection_ops.specs.Indexes.{IsKeyIndex};

    ghost Value = { MapState };

    ghost view = { λ b. record { items = b.items; given = b.given } };

    ghost invariant = { λ b. IsMapKept (record { items = b.items; given = b.given }) × IsKeyIndex b.items b.index };
}

impl MapBody {
    /// No items, and no number given. They take no memory.
    pub fn new(alloc: Global) -> Result<MapBody, Memory>
        ensures { result ≡ Ok (record { items = []; given = 0 }) }
    {
        Ok(MapBody {
            alloc,
            items: Numbered::new(alloc),
            index: TextIndex::new(alloc),
            given: 0,
        })
    }

    pub fn len(&self) -> u32
        ensures { result ≡ length self.now.items }
    {
        self.items.len() as u32
    }

    /// How many item numbers were given: the next new item gets this one.
    pub fn given(&self) -> u32
        ensures { result ≡ self.now.given }
    {
        self.given
    }

    /// The items rise by their numbers, and no key stands twice. It does nothing else than to say so.
    pub fn know_kept(&self)
        ensures { IsMapKept self.now }
    {
        let _ = &self.items;
    }

    /// The value under an item number.
    pub fn get(&self, which: u32) -> Option<&Value>
        ensures { option_copied result ≡ option_map (λ (i : MapItem). i.value) (find map_number which self.now.items) }
    {
        let item = self.items.get(which)?;
        Some(&item.value)
    }

    /// The first item, or the first behind a number.
    pub fn after(&self, number: Option<u32>) -> Option<&MapItem>
        ensures value { option_copied result ≡ slice_get (after_key map_number number self.now.items) 0 }
        ensures rises { RisesFrom map_number 0 self.now.items }
    {
        self.items.after(number)
    }

    /// The n-th item number, counted from 0. It passes over all items before it.
    pub fn number_at(&self, n: u32) -> Option<u32>
        ensures { result ≡ slice_get (map map_number self.now.items) n }
    {
        self.items.number_at(n as usize)
    }

    /// The key under an item number.
    pub fn key_of(&self, number: u32) -> Option<&str>
        ensures { option_copied result ≡ option_map (λ (i : MapItem). i.key) (find map_number number self.now.items) }
    {
        let item = self.items.get(number)?;
        Some(item.key.as_str())
    }

    /// The number of the item of a key.
    pub fn number_of(&self, key: &str) -> Option<u32>
        ensures { result ≡ option_map map_number (key_item self.now.items key.now) }
    {
        let first = self.index.under(text_hash(key));
        if has_key(&self.items, first, key) {
            return first;
        }
        self.index.by_itself(key)
    }

    /// Puts a value under a key. Answers the item's number, and the value that it had.
    pub fn put(&mut self, key: Text, value: Value) -> Result<(u32, Option<Value>), ItemFault>
        ensures { Gives (map_put self.old key value) self.old self.new result }
    {
        match self.number_of(key.as_str()) {
            Some(number) => Ok((number, Some(self.put_again(number, value)))),
            None => self.put_new(key, value),
        }
    }

    /// Puts a value under a key, where the number of its item is known, if it has one; see `number_of`.
    /// Answers as `put` does. Where the key is there no memory is taken.
    pub fn put_at(
        &mut self,
        number: Option<u32>,
        key: &Text,
        value: Value,
    ) -> Result<(u32, Option<Value>), ItemFault>
        requires { number ≡ option_map map_number (key_item self.old.items key.now) }
        ensures { Gives (map_put self.old key.now value) self.old self.new result }
    {
        let Some(number) = number else {
            let key = key.copy(self.alloc)?;
            return self.put_new(key, value);
        };
        Ok((number, Some(self.put_again(number, value))))
    }

    // Puts a new value under the number of an item, which keeps its key. It takes no memory.
    fn put_again(&mut self, number: u32, value: Value) -> Value
        requires { (key : List ℕ) × (option_map map_number (key_item self.old.items key) ≡ Some number) }
        ensures { (key : List ℕ) → option_map map_number (key_item self.old.items key) ≡ Some number → map_put self.old key value ≡ Ok (self.new, (number, Some result)) }
    {
        let blank = MapItem {
            number,
            key: Text::from_string(String::new(self.alloc)),
            value: Value::Truth(false),
        };
        let old = self.items.replace(blank).unwrap();
        self.items.replace(MapItem {
            number,
            key: old.key,
            value,
        });
        old.value
    }

    // Puts an item with a key that isn't there.
    fn put_new(&mut self, key: Text, value: Value) -> Result<(u32, Option<Value>), ItemFault>
        requires { key_item self.old.items key ≡ None }
        ensures { Gives (map_put self.old key value) self.old self.new result }
    {
        if self.given > LAST_NUMBER {
            return Err(ItemFault::NumbersSpent);
        }
        let number = self.given;
        let hash = text_hash(key.as_str());
        self.index.put(self.alloc, hash, key.as_str(), number)?;
        match self.items.push_or_return(MapItem { number, key, value }) {
            Ok(()) => {
                self.given += 1;
                Ok((number, None))
            }
            Err(item) => {
                take_back(&mut self.index, hash, item);
                Err(ItemFault::Memory)
            }
        }
    }

    /// Takes the item of a key out. Answers its number and its value.
    pub fn remove(&mut self, key: &str) -> Result<(u32, Value), ItemFault>
        ensures { Exactly (map_remove self.old key.now) self.old self.new result }
    {
        match self.number_of(key) {
            Some(number) => self.remove_at(number, key),
            None => Err(ItemFault::NoItem),
        }
    }

    /// Takes the item of a key out, where its number is known; see `number_of`.
    pub fn remove_at(&mut self, number: u32, key: &str) -> Result<(u32, Value), ItemFault>
        requires { option_map map_number (key_item self.old.items key.now) ≡ Some number }
        ensures { Exactly (map_remove self.old key.now) self.old self.new result }
    {
        self.index.remove(text_hash(key), key, number);
        let item = self.items.remove(number).unwrap();
        Ok((number, item.value))
    }

    /// Takes all items out. Their numbers aren't given again.
    pub fn clear(&mut self)
        ensures { self.new ≡ record { items = []; given = self.old.given } }
    {
        self.items.clear();
        self.index.clear();
    }

    /// A second list with the same items.
    pub fn copy_items(&self, alloc: Global) -> Result<MapItems, Memory>
        ensures { IfOk result (λ x. x ≡ self.now.items) }
    {
        let mut out = MapItems::new(alloc);
        let mut last = None;
        while let Some(item) = self.items.after(last) {
            last = Some(item.number);
            out.push(item.copy(alloc)?)?;
        }
        Ok(out)
    }
}

// The item of a number that was found has this key.
fn has_key(items: &Numbered<MapItem>, number: Option<u32>, key: &str) -> bool
    ensures { result ≡ has_text (key_texts items.now) key.now number }
{
    let Some(number) = number else {
        return false;
    };
    match items.get(number) {
        Some(item) => item.key.as_str() == key,
        None => false,
    }
}

// Takes the key of an item out of an index.
fn take_back(index: &mut TextIndex, hash: u32, item: MapItem)
    requires { hash ≡ text_hash item.key }
    ensures { IsWithout index.old index.new item.key item.number }
{
    index.remove(hash, item.key.as_str(), item.number);
}
