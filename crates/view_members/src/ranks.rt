//! Ranks that rise, in a list that has room for more.
ghost use Rattle.std.specs.Prelude.{◌≡◌, ◌≤◌, ◌<◌, ◌-◌, [], length, slice_get, None, OnOk, option_copied};
ghost use Rattle.lists.specs.Rising.{find, put, remove};
ghost use Rattle.view_members.specs.Standings.{itself};

use lists::{Memory, reserve_total};
use std::alloc::Global;
use std::marker::Model;

/// Ranks that rise. Putting one in within the room takes no memory; putting in and taking out
/// move the ranks behind.
#[derive(Drop)]
pub struct Ranks {
    numbers: Vec<u64>,
}

impl Model for Ranks {
    ghost use Rattle.std.specs.Prelude.{ℕ, vec_capacity};
    ghost use Rattle.lists.specs.Rising.{RisesFrom};
    ghost use Rattle.view_members.specs.Standings.{RanksState, itself};

    ghost Value = { RanksState };

    ghost view = { λ r. record { numbers = r.numbers.items; room = vec_capacity r.numbers } };

    ghost invariant = { λ r. RisesFrom itself 0 r.numbers.items };
}

impl Ranks {
    /// No ranks. They take no memory.
    pub fn new(alloc: Global) -> Ranks
        ensures { result.numbers ≡ [] }
    {
        Ranks {
            numbers: Vec::new(alloc),
        }
    }

    /// The n-th rank, counted from 0.
    pub fn at(&self, n: usize) -> Option<u64>
        ensures { result ≡ slice_get self.now.numbers n }
    {
        self.numbers.get(n).copied()
    }

    /// The last rank.
    pub fn last(&self) -> Option<u64>
        ensures { result ≡ slice_get self.now.numbers (length self.now.numbers - 1) }
    {
        self.numbers.last().copied()
    }

    /// Makes room for so many ranks in all.
    pub fn reserve(&mut self, room: usize) -> Result<(), Memory>
        ensures numbers { self.new.numbers ≡ self.old.numbers }
        ensures ok { OnOk result (room ≤ self.new.room) }
        ensures kept { self.old.room ≤ self.new.room }
    {
        reserve_total(&mut self.numbers, room)
    }

    /// Puts a rank in its place.
    pub fn put(&mut self, rank: u64)
        requires { find itself rank self.old.numbers ≡ None → length self.old.numbers < self.old.room }
        ensures numbers { self.new.numbers ≡ put itself rank self.old.numbers }
        ensures kept { self.old.room ≤ self.new.room }
    {
        if let Err(at) = self.numbers.binary_search(&rank) {
            self.numbers.insert(at, rank).unwrap();
        }
    }

    /// Takes a rank out.
    pub fn take_out(&mut self, rank: u64)
        ensures numbers { self.new.numbers ≡ remove itself rank self.old.numbers }
        ensures kept { self.old.room ≤ self.new.room }
    {
        if let Ok(at) = self.numbers.binary_search(&rank) {
            self.numbers.remove(at);
        }
    }
}
