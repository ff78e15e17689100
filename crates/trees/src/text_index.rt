ghost use Rattle.std.specs.Prelude.{◌≡◌, ℕ, List, None, OnOk, OnErr};
ghost use Rattle.trees.specs.Texts.{text_hash};

use lists::Memory;
use std::alloc::Global;
use std::collections::BTreeMap;

/// Where items are, by a text that each of them has. A text leads to the number under its hash, if the item of that
/// number has the text, and else to a number of its own. So a text stands once, in its item, unless its hash was taken.
/// A text is found, put in and taken out in logarithmic time, however many have one hash.
#[derive(Drop)]
pub struct TextIndex {
    // The number under each hash.
    numbers: BTreeMap<u32, u32>,
    // The number of each text whose hash was taken.
    others: BTreeMap<String, u32>,
}

/// A hash of a text.
#[tactic(auto, unfolding(crate::specs::Texts::text_hash))]
pub fn text_hash(text: &str) -> u32
    ensures { result ≡ text_hash text.now }
{
    let mut hash: u32 = 0;
    for byte in text.as_bytes() {
        hash = hash.wrapping_mul(16_777_619).wrapping_add(u32::from(*byte));
    }
    hash
}

impl TextIndex {
    ghost use Rattle.trees.specs.Texts.{under, by_itself, IsEmpty, IsSame, IsWith, IsWithout};

    /// No text leads anywhere. It takes no memory.
    pub fn new(alloc: Global) -> TextIndex
        ensures { IsEmpty result }
    {
        TextIndex {
            numbers: BTreeMap::new(alloc),
            others: BTreeMap::new(alloc),
        }
    }

    /// The number under a hash. A text of this hash leads there only if the item of the number has the text.
    pub fn under(&self, hash: u32) -> Option<u32>
        ensures { result ≡ under self.now hash }
    {
        self.numbers.get(&hash).copied()
    }

    /// The number of a text by itself.
    pub fn by_itself(&self, text: &str) -> Option<u32>
        ensures { result ≡ by_itself self.now text.now }
    {
        self.others.get(text).copied()
    }

    /// A text leads to this number from now on. Its hash is given. An `Err` changes nothing.
    pub fn put(&mut self, alloc: Global, hash: u32, text: &str, number: u32) -> Result<(), Memory>
        requires { hash ≡ text_hash text.now }
        ensures ok { OnOk result (IsWith self.old self.new text.now number) }
        ensures err { OnErr result (IsSame self.old self.new) }
    {
        let first = *self.numbers.entry(hash)?.or_insert(number);
        if first != number {
            let text = String::from_str(alloc, text)?;
            self.others.insert(text, number)?;
        }
        Ok(())
    }

    /// A text leads to this number no more. Its hash is given.
    pub fn remove(&mut self, hash: u32, text: &str, number: u32)
        requires { hash ≡ text_hash text.now }
        ensures { IsWithout self.old self.new text.now number }
    {
        if self.under(hash) == Some(number) {
            self.numbers.remove(&hash);
        } else {
            self.others.remove(text);
        }
    }

    /// No text leads anywhere from now on.
    pub fn clear(&mut self)
        ensures { IsEmpty self.new }
    {
        self.numbers.clear();
        self.others.clear();
    }
}
