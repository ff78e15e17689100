ghost use Rattle.std.specs.Prelude.{◌≡◌, ◌==◌, ◌||◌, not, [], None, OnOk, IfOk, IfSome};
ghost use Rattle.std.specs.List.{list_any};
ghost use Rattle.std.specs.Str.{bytes_eq};
ghost use Rattle.lists.specs.Rising as rising;
ghost use Rattle.state_model.specs.declared.row.MapItem.{MapItem};
ghost use Rattle.trees.specs.Texts.{text_hash, has_text, leads, IsIndexOf};
ghost use Rattle.wire_model.specs.Effect.{without_key, put_named, put_value};
ghost use Rattle.wire_ops.specs.Index.{key_texts, without_item, IsWithoutAny, IsWithoutItem, IsIndexWithout};

use lists::{Copied, Memory, Text};
use schema_model::Value;
use state_model::{MapItem, MapItems};
use std::alloc::Global;
use std::marker::Model;
use std::mem;
use trees::{TextIndex, Tree, text_hash};

/// The items of a map while operations run: found by number and by key in logarithmic time.
#[derive(Drop)]
pub struct Items {
    items: Tree<MapItem>,
    // Where the item of each key is. There is no index where several items that were taken over have
    // one key, which no operation makes, and none after an operation that failed.
    index: Option<TextIndex>,
}

impl Model for Items {
    ghost use Rattle.std.specs.Prelude.{List, IfSome};
    ghost use Rattle.state_model.specs.declared.row.MapItem.{MapItem};
    ghost use Rattle.trees.specs.Texts.{IsIndexOf};
    ghost use Rattle.wire_ops.specs.Index.{key_texts};

    ghost Value = { List MapItem };

    ghost view = { λ s. s.items };

    ghost invariant = { λ s. IfSome s.index (λ i. IsIndexOf (key_texts s.items) i) };
}

impl Items {
    /// No items. They take no memory.
    fn new(alloc: Global) -> Items
        ensures { result ≡ [] }
    {
        Items {
            items: Tree::new(alloc),
            index: Some(TextIndex::new(alloc)),
        }
    }

    /// Items, taken over. Takes their number times its logarithm.
    pub(crate) fn open(alloc: Global, items: MapItems) -> Result<Items, Memory>
        ensures { IfOk result (λ s. s ≡ items) }
    {
        let mut opened = Items::new(alloc);
        let mut items = items;
        if items.is_empty() {
            return Ok(opened);
        }
        while let Some(item) = items.pop() {
            opened.add(alloc, item)?;
        }
        Ok(opened)
    }

    // Adds an item whose number no other has. Where another has its key there is no index from now on.
    fn add(&mut self, alloc: Global, item: MapItem) -> Result<(), Memory>
        requires { rising.find (λ (i : MapItem). i.number) item.number self.old ≡ None }
        ensures { OnOk result (self.new ≡ rising.put (λ (i : MapItem). i.number) item self.old) }
    {
        let index = index_with(alloc, &self.items, self.index.take(), &item)?;
        self.items.put(item)?;
        self.index = index;
        Ok(())
    }

    /// The items as a list.
    pub(crate) fn close(self, alloc: Global) -> Result<MapItems, Memory>
        ensures { IfOk result (λ items. items ≡ self) }
    {
        self.items.into_rising(alloc)
    }

    /// An item has this number.
    pub(crate) fn has(&self, number: u32) -> bool
        ensures { result ≡ list_any (λ (i : MapItem). i.number == number) self.now }
    {
        self.items.get(number).is_some()
    }

    /// Puts an item under a number. Another number with its key is gone. Takes logarithmic time;
    /// it looks at all items where those that were taken over repeat a key, or after an `Err`.
    pub(crate) fn put_named(
        &mut self,
        alloc: Global,
        number: u32,
        key: &Text,
        value: Value,
    ) -> Result<(), Memory>
        ensures { OnOk result (self.new ≡ put_named number key.now value self.old) }
    {
        match self.index.take() {
            Some(index) => {
                let mut index = index;
                put_by_index(alloc, &mut self.items, &mut index, number, key, value)?;
                self.index = Some(index);
                Ok(())
            }
            None => self.put_by_scan(alloc, number, key, value),
        }
    }

    // Puts an item. Another number with its key is gone. Looks at all items.
    fn put_by_scan(
        &mut self,
        alloc: Global,
        number: u32,
        key: &Text,
        value: Value,
    ) -> Result<(), Memory>
        ensures { OnOk result (self.new ≡ put_named number key.now value self.old) }
    {
        self.index = None;
        let items = mem::replace(&mut self.items, Tree::new(alloc));
        self.items = with_item(alloc, items, number, key, value)?;
        Ok(())
    }

    /// Puts a new value under a number that is there.
    pub(crate) fn put_value(&mut self, number: u32, value: Value) -> Result<(), Memory>
        ensures { OnOk result (self.new ≡ put_value number value self.old) }
    {
        let index = self.index.take();
        if let Some(old) = self.items.remove(number) {
            self.items.put(MapItem {
                number,
                key: old.key,
                value,
            })?;
        }
        self.index = index;
        Ok(())
    }

    /// Takes the item with this number out.
    pub(crate) fn remove(&mut self, number: u32)
        ensures { self.new ≡ rising.remove (λ (i : MapItem). i.number) number self.old }
    {
        let old = self.items.remove(number);
        forget_in(&mut self.index, old);
    }

    /// Takes all items out.
    pub(crate) fn clear(&mut self, alloc: Global)
        ensures { self.new ≡ [] }
    {
        self.items.clear();
        self.index = Some(TextIndex::new(alloc));
    }
}

// Puts an item. Another number with its key is gone.
fn put_by_index(
    alloc: Global,
    items: &mut Tree<MapItem>,
    index: &mut TextIndex,
    number: u32,
    key: &Text,
    value: Value,
) -> Result<(), Memory>
    requires { IsIndexOf (key_texts items.old) index.old }
    ensures items { OnOk result (items.new ≡ put_named number key.now value items.old) }
    ensures index { OnOk result (IsIndexOf (key_texts items.new) index.new) }
{
    let hash = text_hash(key.as_str());
    let owner = number_of(items, index, hash, key);
    let old = items.put(MapItem {
        number,
        key: key.copy(alloc)?,
        value,
    })?;
    if owner == Some(number) {
        return Ok(());
    }
    take_owner(items, index, owner, hash, key);
    forget(index, old);
    index.put(alloc, hash, key.as_str(), number)
}

// The number of the item of a key, whose hash is given.
fn number_of(items: &Tree<MapItem>, index: &TextIndex, hash: u32, key: &Text) -> Option<u32>
    requires { hash ≡ text_hash key.now }
    ensures { result ≡ leads (key_texts items.now) index.now key.now }
{
    let first = index.under(hash);
    if found_has(items, first, key) {
        return first;
    }
    index.by_itself(key.as_str())
}

// The item of a number that was found has this key. It takes no longer than this key is long,
// however long the item's is.
fn found_has(items: &Tree<MapItem>, number: Option<u32>, key: &Text) -> bool
    ensures { result ≡ has_text (key_texts items.now) key.now number }
{
    let Some(number) = number else {
        return false;
    };
    match items.get(number) {
        Some(item) => has_key(item, key),
        None => false,
    }
}

// An index with the key of one more item, if there is an index, and none where another item has the key.
fn index_with(
    alloc: Global,
    items: &Tree<MapItem>,
    index: Option<TextIndex>,
    item: &MapItem,
) -> Result<Option<TextIndex>, Memory>
    requires index { IfSome index (IsIndexOf (key_texts items.now)) }
    requires new { rising.find (λ (i : MapItem). i.number) item.now.number items.now ≡ None }
    ensures { IfOk result (λ made. IfSome made (IsIndexOf (key_texts (rising.put (λ (i : MapItem). i.number) item.now items.now)))) }
{
    let Some(index) = index else {
        return Ok(None);
    };
    let hash = text_hash(item.key.as_str());
    if number_of(items, &index, hash, &item.key).is_some() {
        return Ok(None);
    }
    let mut index = index;
    index.put(alloc, hash, item.key.as_str(), item.number)?;
    Ok(Some(index))
}

// Takes the item of a number out, where there is one, and its key, whose hash is given, out of the index.
fn take_owner(
    items: &mut Tree<MapItem>,
    index: &mut TextIndex,
    owner: Option<u32>,
    hash: u32,
    key: &Text,
)
    requires { hash ≡ text_hash key.now }
    ensures items { items.new ≡ without_item owner items.old }
    ensures index { IsWithoutAny index.old index.new key.now owner }
{
    if let Some(owner) = owner {
        items.remove(owner);
        index.remove(hash, key.as_str(), owner);
    }
}

// Takes the key of an item that is gone out of the index, where there is such an item.
fn forget(index: &mut TextIndex, old: Option<MapItem>)
    ensures { IsWithoutItem index.old index.new old }
{
    if let Some(old) = old {
        index.remove(text_hash(old.key.as_str()), old.key.as_str(), old.number);
    }
}

// The same where there may be no index.
fn forget_in(index: &mut Option<TextIndex>, old: Option<MapItem>)
    ensures { IsIndexWithout index.old index.new old }
{
    if let Some(index) = index {
        forget(index, old);
    }
}

// Items with one more. Another number with its key is gone. Looks at all items.
fn with_item(
    alloc: Global,
    items: Tree<MapItem>,
    number: u32,
    key: &Text,
    value: Value,
) -> Result<Tree<MapItem>, Memory>
    ensures { IfOk result (λ put. put ≡ put_named number key.now value items) }
{
    let kept = without_key(alloc, items.into_rising(alloc)?, number, key)?;
    let mut put = Tree::from_rising(alloc, kept)?;
    put.put(MapItem {
        number,
        key: key.copy(alloc)?,
        value,
    })?;
    Ok(put)
}

// The items without another number that has this key.
fn without_key(alloc: Global, items: MapItems, number: u32, key: &Text) -> Result<MapItems, Memory>
    ensures { IfOk result (λ kept. kept ≡ without_key number key.now items) }
{
    let mut kept = MapItems::new(alloc);
    if items.is_empty() {
        return Ok(kept);
    }
    for item in items.as_slice() {
        if is_kept(item, number, key) {
            kept.push(item.copy(alloc)?)?;
        }
    }
    Ok(kept)
}

fn is_kept(item: &MapItem, number: u32, key: &Text) -> bool
    ensures { result ≡ ((item.now.number == number) || not (bytes_eq item.now.key key.now)) }
{
    item.number == number || !has_key(item, key)
}

fn has_key(item: &MapItem, key: &Text) -> bool
    ensures { result ≡ bytes_eq item.now.key key.now }
{
    item.key.as_slice() == key.as_slice()
}
