ghost use Rattle.std.specs.Prelude.{◌≡◌, ◌-◌, ◌==◌, [], ◌∷◌, ◌++◌, length, take, slice_get, option_to_list, is_ok, if◌then◌else◌, IfOk};

use crate::copied::Copied;
use crate::memory::Memory;
use std::alloc::Global;
use std::marker::Model;

/// A list, which contracts see as the list of its items.
#[derive(Debug, Drop)]
pub struct Seq<T> {
    items: Vec<T>,
}

impl<T> Model for Seq<T> {
    ghost use Rattle.std.specs.Prelude.{List};

    ghost Value = { List T };

    ghost view = { λ s. s.items.items };
}

impl<T> Seq<T> {
    /// The empty list. It takes no memory.
    pub fn new(alloc: Global) -> Self
        ensures { result ≡ [] }
    {
        Seq {
            items: Vec::new(alloc),
        }
    }

    /// A list, taken over as it is.
    pub fn from_vec(items: Vec<T>) -> Seq<T>
        ensures { result ≡ items.items }
    {
        Seq { items }
    }

    pub fn into_vec(self) -> Vec<T>
        ensures { result.items ≡ self }
    {
        self.items
    }

    pub fn as_slice(&self) -> &[T]
        ensures { result.now ≡ self.now }
    {
        self.items.as_slice()
    }

    pub fn len(&self) -> usize
        ensures { result ≡ length self.now }
    {
        self.items.len()
    }

    pub fn is_empty(&self) -> bool
        ensures { result ≡ (length self.now == 0) }
    {
        self.items.is_empty()
    }

    /// Adds an item at the end. An `Err` changes nothing.
    pub fn push(&mut self, item: T) -> Result<(), Memory>
    where
        T: Drop,
        ensures { self.new ≡ (if is_ok result then self.old ++ item ∷ [] else self.old) }
    {
        self.items.push(item)?;
        Ok(())
    }

    /// Takes the last item off. An empty list has none, and stays empty.
    pub fn pop(&mut self) -> Option<T>
        ensures last { result ≡ slice_get self.old (length self.old - 1) }
        ensures rest { self.new ≡ take (length self.old - 1) self.old }
        ensures items { self.old ≡ self.new ++ option_to_list result }
    {
        self.items.pop()
    }
}

impl<T: Copied> Seq<T> {
    /// A second list of the same items.
    pub fn copy(&self, alloc: Global) -> Result<Seq<T>, Memory>
        ensures { IfOk result (λ x. x ≡ self.now) }
    {
        let mut out = Seq::new(alloc);
        for item in self.as_slice() {
            out.push(item.copy(alloc)?)?;
        }
        Ok(out)
    }
}
