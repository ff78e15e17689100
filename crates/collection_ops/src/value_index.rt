ghost use Rattle.std.specs.Prelude.{◌≡◌, None, OnOk, OnErr};
ghost use Rattle.schema_model.specs.declared.value.Value.{Value};
ghost use Rattle.trees.specs.Texts.{is_text, has_text, leads, IsEmpty};
ghost use Rattle.collection_ops.specs.Indexes.{text_in, value_texts, plain_number, value_number, IsSameIndex, IsWithValue, IsWithoutValue};

use lists::Memory;
use schema_model::Value;
use state_model::SetItem;
use std::alloc::Global;
use std::collections::BTreeMap;
use trees::{Numbered, TextIndex, text_hash};

/// Which number each value of the items of a set leads to. A text isn't kept here, but for few: the item of its number
/// is looked at. A value is found, put in and taken out in logarithmic time.
#[derive(Drop)]
pub struct ValueIndex {
    wholes: BTreeMap<i128, u32>,
    texts: TextIndex,
    links: BTreeMap<u32, u32>,
    yes: Option<u32>,
    no: Option<u32>,
}

impl ValueIndex {
    /// No value leads anywhere. It takes no memory.
    pub fn new(alloc: Global) -> ValueIndex
        ensures plain { (q : Value) → plain_number result q ≡ None }
        ensures texts { IsEmpty result.texts }
    {
        ValueIndex {
            wholes: BTreeMap::new(alloc),
            texts: TextIndex::new(alloc),
            links: BTreeMap::new(alloc),
            yes: None,
            no: None,
        }
    }

    /// The number that a value leads to among items.
    pub fn get(&self, items: &Numbered<SetItem>, value: &Value) -> Option<u32>
        ensures { result ≡ value_number items.now self.now value.now }
    {
        match value {
            Value::Whole(whole) => self.wholes.get(whole).copied(),
            Value::Str(text) => self.get_text(items, text.as_str()),
            Value::Truth(true) => self.yes,
            Value::Truth(false) => self.no,
            Value::Link(who) => self.links.get(&who.0).copied(),
        }
    }

    // The number that a text leads to among items.
    fn get_text(&self, items: &Numbered<SetItem>, text: &str) -> Option<u32>
        ensures { result ≡ leads (value_texts items.now) self.now.texts text.now }
    {
        let first = self.texts.under(text_hash(text));
        if has_text(items, first, text) {
            return first;
        }
        self.texts.by_itself(text)
    }

    /// The value leads to this number from now on. An `Err` changes nothing.
    pub fn put(&mut self, alloc: Global, value: &Value, number: u32) -> Result<(), Memory>
        ensures ok { OnOk result (IsWithValue self.old self.new value.now number) }
        ensures err { OnErr result (IsSameIndex self.old self.new) }
    {
        match value {
            Value::Whole(whole) => {
                self.wholes.insert(*whole, number)?;
                Ok(())
            }
            Value::Str(text) => {
                let hash = text_hash(text.as_str());
                self.texts.put(alloc, hash, text.as_str(), number)
            }
            Value::Truth(true) => {
                self.yes = Some(number);
                Ok(())
            }
            Value::Truth(false) => {
                self.no = Some(number);
                Ok(())
            }
            Value::Link(who) => {
                self.links.insert(who.0, number)?;
                Ok(())
            }
        }
    }

    /// The value leads to this number no more.
    pub fn remove(&mut self, value: &Value, number: u32)
        ensures { IsWithoutValue self.old self.new value.now number }
    {
        match value {
            Value::Whole(whole) => {
                self.wholes.remove(whole);
            }
            Value::Str(text) => {
                let hash = text_hash(text.as_str());
                self.texts.remove(hash, text.as_str(), number);
            }
            Value::Truth(true) => self.yes = None,
            Value::Truth(false) => self.no = None,
            Value::Link(who) => {
                self.links.remove(&who.0);
            }
        }
    }

    /// No value leads anywhere from now on.
    pub fn clear(&mut self)
        ensures plain { (q : Value) → plain_number self.new q ≡ None }
        ensures texts { IsEmpty self.new.texts }
    {
        self.wholes.clear();
        self.texts.clear();
        self.links.clear();
        self.yes = None;
        self.no = None;
    }
}

// The item of a number that was found has this text.
fn has_text(items: &Numbered<SetItem>, number: Option<u32>, text: &str) -> bool
    ensures { result ≡ has_text (value_texts items.now) text.now number }
{
    let Some(number) = number else {
        return false;
    };
    match items.get(number) {
        Some(item) => is_text(&item.value, text),
        None => false,
    }
}

// The value is this text.
fn is_text(value: &Value, text: &str) -> bool
    ensures { result ≡ is_text text.now (text_in value.now) }
{
    match value {
        Value::Str(held) => held.as_str() == text,
        _ => false,
    }
}
