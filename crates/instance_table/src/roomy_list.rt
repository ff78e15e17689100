//! Numbers in a list that has room for more.
ghost use Rattle.std.specs.Prelude.{◌≡◌, ◌≤◌, ◌<◌, [], ◌∷◌, ◌++◌, length, IsPermutation, None, OnOk, slice_get};
ghost use Rattle.std.specs.Option.{option_to_list};
ghost use Rattle.state_model.specs.Reached.{is_among};
ghost use Rattle.instance_table.specs.Holders.{AscendsFrom};

use lists::reserve_total;
use schema_model::{Memory, RefNum};
use std::alloc::Global;
use std::marker::Model;

/// Reference numbers in a list. Adding one within its room takes no memory.
#[derive(Drop)]
pub struct RoomyList {
    numbers: Vec<RefNum>,
}

impl Model for RoomyList {
    ghost use Rattle.std.specs.Prelude.{vec_capacity};
    ghost use Rattle.instance_table.specs.Lists.{RoomyState};

    ghost Value = { RoomyState };

    ghost view = { λ l. record { numbers = l.numbers.items; room = vec_capacity l.numbers } };
}

impl RoomyList {
    /// No numbers. They take no memory.
    pub fn new(alloc: Global) -> RoomyList
        ensures { result.numbers ≡ [] }
    {
        RoomyList {
            numbers: Vec::new(alloc),
        }
    }

    pub fn as_slice(&self) -> &[RefNum]
        ensures { result.now ≡ self.now.numbers }
    {
        self.numbers.as_slice()
    }

    /// The n-th number.
    pub fn get(&self, n: usize) -> Option<RefNum>
        ensures { result ≡ slice_get self.now.numbers n }
    {
        self.numbers.get(n).copied()
    }

    /// Whether it has a number. It looks at one after another.
    pub fn has(&self, number: RefNum) -> bool
        ensures { result ≡ is_among number self.now.numbers }
    {
        self.numbers.contains(&number)
    }

    /// Makes room for so many numbers in all.
    pub fn reserve(&mut self, room: usize) -> Result<(), Memory>
        ensures numbers { self.new.numbers ≡ self.old.numbers }
        ensures ok { OnOk result (room ≤ self.new.room) }
        ensures kept { self.old.room ≤ self.new.room }
    {
        reserve_total(&mut self.numbers, room)
    }

    /// Adds a number.
    pub fn add(&mut self, number: RefNum)
        requires { length self.old.numbers < self.old.room }
        ensures numbers { self.new.numbers ≡ self.old.numbers ++ number ∷ [] }
        ensures kept { self.old.room ≤ self.new.room }
    {
        self.numbers.push(number).unwrap();
    }

    /// Takes the last number out.
    pub fn pop(&mut self) -> Option<RefNum>
        ensures numbers { self.old.numbers ≡ self.new.numbers ++ option_to_list result }
        ensures none { result ≡ None → self.new.numbers ≡ [] }
        ensures kept { self.old.room ≤ self.new.room }
    {
        self.numbers.pop()
    }

    /// Takes all numbers out.
    pub fn clear(&mut self)
        ensures numbers { self.new.numbers ≡ [] }
        ensures kept { self.old.room ≤ self.new.room }
    {
        self.numbers.clear();
    }

    /// Puts the numbers into order.
    pub fn sort(&mut self)
        ensures numbers { IsPermutation self.old.numbers self.new.numbers }
        ensures rises { AscendsFrom 0 self.new.numbers }
        ensures kept { self.old.room ≤ self.new.room }
    {
        self.numbers.sort_unstable();
    }
}
