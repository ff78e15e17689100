//! The open rooms of one definition.
ghost use Rattle.std.specs.Prelude.{◌≡◌, ℕ, Bool, List, false, not, ◌&&◌, ◌||◌, ◌==◌, ◌++◌, IfOk, OnOk};
ghost use Rattle.std.specs.Str.{bytes_eq};
ghost use Rattle.hub_core.specs.OpenRooms.{IsFirst, byte_key, criteria_key, is_open_at, text_key};

use lists::{Memory, Text};
use std::alloc::Global;
use std::collections::{BTreeMap, BTreeSet};

/// The numbers of the open rooms of one definition, by the criteria of their creation, which are compared as a whole. The
/// oldest room of given criteria is found, and a room comes and goes, in logarithmic time.
#[derive(Drop)]
pub struct OpenRooms {
    by_criteria: BTreeMap<Vec<u8>, BTreeSet<u64>>,
}

impl OpenRooms {
    /// No rooms. They take no memory.
    pub fn new(alloc: Global) -> OpenRooms
        ensures { (key : List ℕ) (n : ℕ) → is_open_at result key n ≡ false }
    {
        OpenRooms {
            by_criteria: BTreeMap::new(alloc),
        }
    }

    /// The number of the oldest room whose criteria have a key.
    pub fn oldest(&self, key: &[u8]) -> Option<u64>
        ensures { IsFirst (is_open_at self.now key.now) result }
    {
        let numbers = self.by_criteria.get(key)?;
        numbers.first().copied()
    }

    /// Adds the room of a number, whose criteria have a key.
    pub fn add(&mut self, alloc: Global, key: Vec<u8>, serial: u64) -> Result<(), Memory>
        ensures { OnOk result ((k : List ℕ) (n : ℕ) → is_open_at self.new k n ≡ ((bytes_eq key.items k && (serial == n)) || is_open_at self.old k n)) }
    {
        if let Some(numbers) = self.by_criteria.get_mut(key.as_slice()) {
            numbers.insert(serial)?;
            return Ok(());
        }
        let mut numbers = BTreeSet::new(alloc);
        numbers.insert(serial)?;
        self.by_criteria.insert(key, numbers)?;
        Ok(())
    }

    /// Takes the room of a number out, whose criteria have a key. A key without rooms goes.
    pub fn take(&mut self, key: &[u8], serial: u64)
        ensures { (k : List ℕ) (n : ℕ) → is_open_at self.new k n ≡ (not (bytes_eq key.now k && (serial == n)) && is_open_at self.old k n) }
    {
        let Some(numbers) = self.by_criteria.get_mut(key) else {
            return;
        };
        numbers.remove(&serial);
        if numbers.is_empty() {
            self.by_criteria.remove(key);
        }
    }
}

/// The key of criteria. Others have another one.
pub fn criteria_key(alloc: Global, criteria: &[Text]) -> Result<Vec<u8>, Memory>
    ensures { IfOk result (λ key. key.items ≡ criteria_key criteria.now) }
{
    let mut key = Vec::new(alloc);
    for text in criteria {
        put_text(&mut key, text.as_slice())?;
    }
    Ok(key)
}

// Appends a text with its end. A zero in it is told from the end by a one behind it.
fn put_text(key: &mut Vec<u8>, text: &[u8]) -> Result<(), Memory>
    ensures { OnOk result (key.new.items ≡ key.old.items ++ text_key text.now) }
{
    for byte in text {
        put_byte(key, *byte)?;
    }
    key.extend_from_slice(&[0, 0])?;
    Ok(())
}

fn put_byte(key: &mut Vec<u8>, byte: u8) -> Result<(), Memory>
    ensures { OnOk result (key.new.items ≡ key.old.items ++ byte_key byte) }
{
    key.push(byte)?;
    if byte == 0 {
        key.push(1)?;
    }
    Ok(())
}
