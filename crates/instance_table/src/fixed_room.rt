//! Room for a walk to all rows of a table, which takes no memory.
ghost use Rattle.std.specs.Prelude.{◌≡◌, ◌≤◌, [], length};

use crate::walk_room::WalkRoom;
use arrayvec::ArrayVec;
use schema_model::{Memory, RefNum};
use std::marker::Model;

/// How many rows a table may have.
const ROWS: usize = 16_384;

/// How many numbers may wait: where a walk starts, and one for each place that a table may have.
const WAITING: usize = 65_537;

/// Room for a walk to all rows of a table. It stands in itself, 320 KiB, and takes no memory.
#[derive(Drop)]
pub struct FixedRoom {
    seen: ArrayVec<u32, ROWS>,
    waiting: ArrayVec<u32, WAITING>,
}

impl Model for FixedRoom {
    ghost use Rattle.lists.specs.Rising.{RisesFrom};
    ghost use Rattle.instance_table.specs.Lists.{WalkState};

    ghost Value = { WalkState };

    ghost view = { λ r. record { seen = r.seen.items; waiting = r.waiting.items } };

    ghost invariant = { λ r. RisesFrom (λ n. n) 0 r.seen.items };
}

impl FixedRoom {
    /// Nothing is seen, and nothing waits.
    pub fn new() -> FixedRoom
        ensures seen { result.seen ≡ [] }
        ensures waiting { result.waiting ≡ [] }
    {
        FixedRoom {
            seen: ArrayVec::new(),
            waiting: ArrayVec::new(),
        }
    }

    /// Nothing is seen any more, and nothing waits.
    pub fn clear(&mut self)
        ensures seen { self.new.seen ≡ [] }
        ensures waiting { self.new.waiting ≡ [] }
    {
        self.seen.clear();
        self.waiting.clear();
    }

    /// The numbers that were seen, rising.
    pub fn seen(&self) -> &[u32]
        ensures value { result.now ≡ self.now.seen }
        ensures few { length result.now ≤ 16384 }
    {
        self.seen.as_slice()
    }
}

impl WalkRoom for FixedRoom {
    ghost seen_in = { λ r. r.seen };

    ghost waiting_in = { λ r. r.waiting };

    ghost sure_seen = { 16384 };

    ghost sure_waiting = { 65537 };

    fn wait(&mut self, who: RefNum) -> Result<(), Memory> {
        match self.waiting.try_push(who.0) {
            Ok(()) => Ok(()),
            Err(_) => Err(Memory),
        }
    }

    fn next(&mut self) -> Option<RefNum> {
        let who = self.waiting.pop()?;
        Some(RefNum(who))
    }

    fn see(&mut self, who: RefNum) -> Result<bool, Memory> {
        let Err(at) = self.seen.as_slice().binary_search(&who.0) else {
            return Ok(false);
        };
        if self.seen.is_full() {
            return Err(Memory);
        }
        self.seen.insert(at, who.0);
        Ok(true)
    }
}
