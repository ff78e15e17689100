ghost use Rattle.std.specs.Prelude.{◌≡◌, ◌<◌, ◌^◌, [], ◌∷◌, ◌++◌, length, slice_get, is_ok, if◌then◌else◌, IfOk, Ok, option_copied};
ghost use Rattle.collection_ops.specs.Bodies.{array_put_at, array_remove_at, Exactly};

use crate::fault::ItemFault;
use lists::Memory;
use schema_model::Value;
use state_model::Values;
use std::alloc::Global;
use std::collections::VecDeque;
use std::marker::Model;
use std::mem;

/// The values of an array. Putting one in or taking one out at either end moves no others; taking one out between them
/// moves those on the shorter side.
#[derive(Drop)]
pub struct ArrayBody {
    values: VecDeque<Value>,
}

impl Model for ArrayBody {
    ghost use Rattle.std.specs.Prelude.{◌≤◌, ◌^◌, List, length};
    ghost use Rattle.schema_model.specs.declared.value.Value as held;

    ghost Value = { List held.Value };

    ghost view = { λ b. b.values.items };

    ghost invariant = { λ b. length b.values.items ≤ 2 ^ 31 };
}

impl ArrayBody {
    /// No values. They take no memory.
    pub fn new(alloc: Global) -> Result<ArrayBody, Memory>
        ensures { result ≡ Ok ([]) }
    {
        Ok(ArrayBody {
            values: VecDeque::new(alloc),
        })
    }

    pub fn len(&self) -> u32
        ensures { result ≡ length self.now }
    {
        self.values.len() as u32
    }

    /// The value at a position.
    pub fn get(&self, at: u32) -> Option<&Value>
        ensures { option_copied result ≡ slice_get self.now at }
    {
        self.nth(at as usize)
    }

    /// The n-th value, counted from 0.
    pub fn nth(&self, n: usize) -> Option<&Value>
        ensures { option_copied result ≡ slice_get self.now n }
    {
        self.values.get(n)
    }

    /// Adds a value at the end. An `Err` changes nothing.
    pub fn push(&mut self, value: Value) -> Result<(), Memory>
        requires { length self.old < 2 ^ 31 }
        ensures { self.new ≡ (if is_ok result then self.old ++ value ∷ [] else self.old) }
    {
        self.values.push_back(value)?;
        Ok(())
    }

    /// Puts a value in the place of another, which it answers.
    pub fn put_at(&mut self, at: u32, value: Value) -> Result<Value, ItemFault>
        ensures { Exactly (array_put_at self.old at value) self.old self.new result }
    {
        let at = at as usize;
        if at >= self.values.len() {
            return Err(ItemFault::NoItem);
        }
        Ok(mem::replace(&mut self.values[at], value))
    }

    /// Takes the value at a position out.
    pub fn remove_at(&mut self, at: u32) -> Result<Value, ItemFault>
        ensures { Exactly (array_remove_at self.old at) self.old self.new result }
    {
        let at = at as usize;
        if at >= self.values.len() {
            return Err(ItemFault::NoItem);
        }
        Ok(self.values.remove(at).unwrap())
    }

    /// Takes all values out.
    pub fn clear(&mut self)
        ensures { self.new ≡ [] }
    {
        self.values.clear();
    }

    /// A second list with the same values.
    pub fn copy_items(&self, alloc: Global) -> Result<Values, Memory>
        ensures { IfOk result (λ x. x ≡ self.now) }
    {
        let mut out = Values::new(alloc);
        while let Some(value) = self.nth(out.len()) {
            out.push(value.copy(alloc)?)?;
        }
        Ok(out)
    }
}
