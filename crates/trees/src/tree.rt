ghost use Rattle.std.specs.Prelude.{◌≡◌, ◌==◌, ◌++◌, [], length, None, OnOk, OnErr, IfOk, IsNone, option_copied};
ghost use Rattle.std.specs.Option.{option_to_list};
ghost use Rattle.lists.specs.Rising.{RisesFrom, find, put, remove};

use lists::{Keyed, Memory, Rising};
use std::alloc::Global;
use std::collections::BTreeMap;
use std::marker::Model;

/// A list that rises strictly by a number of its items, as a tree: an item is found, put in and
/// taken out in logarithmic time.
#[derive(Drop)]
pub struct Tree<T: Keyed> {
    entries: BTreeMap<u32, T>,
}

impl<T: Keyed> Model for Tree<T> {
    ghost use Rattle.std.specs.Prelude.{List};
    ghost use Rattle.lists.specs.Rising.{RisesFrom};
    ghost use Rattle.trees.specs.Trees.{entry_values, IsKeyed};

    ghost Value = { List T };

    ghost view = { λ t. entry_values t.entries.entries };

    ghost invariant = { λ t. IsKeyed T.key t.entries.entries × RisesFrom T.key 0 (entry_values t.entries.entries) };
}

impl<T: Keyed> Tree<T> {
    /// No items. They take no memory.
    pub fn new(alloc: Global) -> Self
        ensures { result ≡ [] }
    {
        Tree {
            entries: BTreeMap::new(alloc),
        }
    }

    pub fn len(&self) -> usize
        ensures { result ≡ length self.now }
    {
        self.entries.len()
    }

    pub fn is_empty(&self) -> bool
        ensures { result ≡ (length self.now == 0) }
    {
        self.len() == 0
    }

    /// The items of a list. Takes the list's length times its logarithm.
    pub fn from_rising(alloc: Global, items: Rising<T>) -> Result<Self, Memory>
        ensures { IfOk result (λ t. t ≡ items) }
    {
        let mut tree = Tree::new(alloc);
        let mut items = items;
        if items.is_empty() {
            return Ok(tree);
        }
        while let Some(item) = items.pop() {
            tree.put(item)?;
        }
        Ok(tree)
    }

    /// The items as a list. Takes time in proportion to its length.
    pub fn into_rising(self, alloc: Global) -> Result<Rising<T>, Memory>
        ensures { IfOk result (λ items. items ≡ self) }
    {
        let mut out = Rising::new(alloc);
        for item in self.entries.into_values() {
            out.push(item)?;
        }
        Ok(out)
    }

    /// Takes the first item out.
    pub fn pop_first(&mut self) -> Option<T>
        ensures items { self.old ≡ option_to_list result ++ self.new }
        ensures none { IsNone result → self.old ≡ [] }
        ensures rises { RisesFrom T.key 0 self.old }
    {
        let (_, item) = self.entries.pop_first()?;
        Some(item)
    }

    /// The item with this key.
    pub fn get(&self, key: u32) -> Option<&T>
        ensures { option_copied result ≡ find T.key key self.now }
    {
        self.entries.get(&key)
    }

    /// Puts an item in its place, and answers the one with its key that it replaces. Only an
    /// item with a new key takes memory.
    pub fn put(&mut self, item: T) -> Result<Option<T>, Memory>
        ensures replaced { IfOk result (λ old. old ≡ find T.key (T.key item) self.old) }
        ensures ok { OnOk result (self.new ≡ put T.key item self.old) }
        ensures err { OnErr result (self.new ≡ self.old) }
        ensures absent { OnErr result (find T.key (T.key item) self.old ≡ None) }
        ensures rises { RisesFrom T.key 0 self.old }
    {
        let old = self.entries.insert(item.key(), item)?;
        Ok(old)
    }

    /// Takes the item with this key out.
    pub fn remove(&mut self, key: u32) -> Option<T>
        ensures found { result ≡ find T.key key self.old }
        ensures rest { self.new ≡ remove T.key key self.old }
        ensures rises { RisesFrom T.key 0 self.old }
    {
        self.entries.remove(&key)
    }

    /// Takes all items out.
    pub fn clear(&mut self)
        ensures { self.new ≡ [] }
    {
        self.entries.clear();
    }
}
