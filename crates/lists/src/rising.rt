ghost use Rattle.std.specs.Prelude.{◌≡◌, ◌-◌, suc, ◌<◌, ◌≤◌, ◌==◌, None, [], ◌∷◌, ◌++◌, length, take, drop, slice_get, Some, HoldsAt, is_ok, if◌then◌else◌, OnOk, OnErr, IfOk, IfErr, IfSome, option_copied, true};
ghost use Rattle.std.specs.Option.{option_to_list};
ghost use Rattle.lists.specs.Rising.{RisesFrom, IsAbove, after_key, find, put, remove};

use crate::copied::Copied;
use crate::memory::Memory;
use std::alloc::Global;
use std::marker::Model;
use std::mem;

/// What has a number by which a list of it rises.
pub trait Keyed: Drop {
    ghost use Rattle.std.specs.Prelude.{◌≡◌, ℕ, ◌<◌, ◌^◌};

    /// The number.
    ghost key: { Self → ℕ };

    fn key(&self) -> u32
        ensures { result ≡ key self.now };
}

/// A list that rises strictly by a number of its items.
#[derive(Debug, Drop)]
pub struct Rising<T: Keyed> {
    items: Vec<T>,
}

impl<T: Keyed> Model for Rising<T> {
    ghost use Rattle.std.specs.Prelude.{List};
    ghost use Rattle.lists.specs.Rising.{RisesFrom};

    ghost Value = { List T };

    ghost view = { λ s. s.items.items };

    ghost invariant = { λ s. RisesFrom T.key 0 s.items.items };
}

impl<T: Keyed> Rising<T> {
    /// The empty list. It takes no memory.
    pub fn new(alloc: Global) -> Self
        ensures { result ≡ [] }
    {
        Rising {
            items: Vec::new(alloc),
        }
    }

    /// The empty list. It takes memory for as many items, as `Vec::with_capacity` does.
    pub fn with_capacity(alloc: Global, capacity: usize) -> Result<Self, Memory>
        ensures { IfOk result (λ list. list ≡ []) }
    {
        Ok(Rising {
            items: Vec::with_capacity(alloc, capacity)?,
        })
    }

    pub fn as_slice(&self) -> &[T]
        ensures { result.now ≡ self.now }
    {
        self.items.as_slice()
    }

    pub fn len(&self) -> usize
        ensures { result ≡ length self.now }
    {
        self.items.len()
    }

    pub fn is_empty(&self) -> bool
        ensures value { result ≡ (length self.now == 0) }
        ensures rises { RisesFrom T.key 0 self.now }
    {
        self.items.is_empty()
    }

    /// The item with this key.
    pub fn get(&self, key: u32) -> Option<&T>
        ensures { option_copied result ≡ find T.key key self.now }
    {
        match search(self.items.as_slice(), key) {
            Ok(at) => Some(&self.items[at]),
            Err(_) => None,
        }
    }

    /// The first item, or the first behind a key.
    pub fn after(&self, key: Option<u32>) -> Option<&T>
        ensures { option_copied result ≡ slice_get (after_key T.key key self.now) 0 }
    {
        let items = self.items.as_slice();
        items[place_after(items, key)..].first()
    }

    /// Adds an item behind all others. An `Err` changes nothing.
    pub fn push(&mut self, item: T) -> Result<(), Memory>
        requires { IsAbove T.key (T.key item) self.old }
        ensures { self.new ≡ (if is_ok result then self.old ++ item ∷ [] else self.old) }
    {
        self.items.push(item)?;
        Ok(())
    }

    /// Puts an item in its place, and answers the one with its key that it replaces. Only an
    /// item with a new key takes memory.
    pub fn put(&mut self, item: T) -> Result<Option<T>, Memory>
        ensures replaced { IfOk result (λ old. old ≡ find T.key (T.key item) self.old) }
        ensures ok { OnOk result (self.new ≡ put T.key item self.old) }
        ensures err { OnErr result (self.new ≡ self.old) }
        ensures absent { OnErr result (find T.key (T.key item) self.old ≡ None) }
    {
        match search(self.items.as_slice(), item.key()) {
            Ok(at) => Ok(Some(mem::replace(&mut self.items[at], item))),
            Err(at) => {
                self.items.insert(at, item)?;
                Ok(None)
            }
        }
    }

    /// Takes the last item out.
    pub fn pop(&mut self) -> Option<T>
        ensures items { self.old ≡ self.new ++ option_to_list result }
        ensures rest { self.new ≡ take (length self.old - 1) self.old }
    {
        self.items.pop()
    }

    /// Takes the item with this key out.
    pub fn remove(&mut self, key: u32) -> Option<T>
        ensures found { result ≡ find T.key key self.old }
        ensures rest { self.new ≡ remove T.key key self.old }
    {
        match search(self.items.as_slice(), key) {
            Ok(at) => Some(self.items.remove(at)),
            Err(_) => None,
        }
    }
}

impl<T: Keyed + Copied> Rising<T> {
    /// A second list of the same items.
    pub fn copy(&self, alloc: Global) -> Result<Rising<T>, Memory>
        ensures { IfOk result (λ x. x ≡ self.now) }
    {
        let mut out = Rising::new(alloc);
        if self.is_empty() {
            return Ok(out);
        }
        for item in self.as_slice() {
            out.push(item.copy(alloc)?)?;
        }
        Ok(out)
    }
}

/// Where the item with this key stands, or else where it would stand. It looks first where the item stands if no key is
/// left out between the first one and this, and then at the last item.
pub fn search<T: Keyed>(items: &[T], key: u32) -> Result<usize, usize>
    requires { RisesFrom T.key 0 items.now }
    ensures found { IfOk result (λ at. (at < length items.now) × HoldsAt (λ e. T.key e ≡ key) items.now at) }
    ensures missing { IfErr result (λ at. (at ≤ length items.now) × IsAbove T.key key (take at items.now) × RisesFrom T.key (suc key) (drop at items.now)) }
{
    if let Some(at) = guessed(items, key) {
        return Ok(at);
    }
    if are_below(items, key) {
        return Err(items.len());
    }
    items.binary_search_by_key(&key, |item| item.key())
}

/// The same. It looks first at a place where the item is thought to stand.
pub fn search_near<T: Keyed>(items: &[T], place: usize, key: u32) -> Result<usize, usize>
    requires { RisesFrom T.key 0 items.now }
    ensures found { IfOk result (λ at. (at < length items.now) × HoldsAt (λ e. T.key e ≡ key) items.now at) }
    ensures missing { IfErr result (λ at. (at ≤ length items.now) × IsAbove T.key key (take at items.now) × RisesFrom T.key (suc key) (drop at items.now)) }
{
    if let Some(at) = at_place(items, place, key) {
        return Ok(at);
    }
    search(items, key)
}

/// Where the first item stands, or the first behind a key.
pub fn place_after<T: Keyed>(items: &[T], key: Option<u32>) -> usize
    requires { RisesFrom T.key 0 items.now }
    ensures within { result ≤ length items.now }
    ensures after { drop result items.now ≡ after_key T.key key items.now }
{
    match key {
        Some(key) => place_behind(items, key),
        None => 0,
    }
}

fn place_behind<T: Keyed>(items: &[T], key: u32) -> usize
    requires { RisesFrom T.key 0 items.now }
    ensures within { result ≤ length items.now }
    ensures after { drop result items.now ≡ after_key T.key (Some key) items.now }
{
    match search(items, key) {
        Ok(at) => at + 1,
        Err(at) => at,
    }
}

// Where the item with this key stands, if no key is left out between the first one and this.
fn guessed<T: Keyed>(items: &[T], key: u32) -> Option<usize>
    ensures { IfSome result (λ at. (at < length items.now) × HoldsAt (λ e. T.key e ≡ key) items.now at) }
{
    let first = items.first()?;
    let at = key.checked_sub(first.key())? as usize;
    at_place(items, at, key)
}

// This place, if the item there has this key.
fn at_place<T: Keyed>(items: &[T], at: usize, key: u32) -> Option<usize>
    ensures { IfSome result (λ at. (at < length items.now) × HoldsAt (λ e. T.key e ≡ key) items.now at) }
{
    let item = items.get(at)?;
    if item.key() == key { Some(at) } else { None }
}

// The last item's key is below this one, or there is no item.
fn are_below<T: Keyed>(items: &[T], key: u32) -> bool
    requires { RisesFrom T.key 0 items.now }
    ensures { result ≡ true → IsAbove T.key key items.now }
{
    match items.last() {
        Some(item) => item.key() < key,
        None => true,
    }
}
