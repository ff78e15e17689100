//! What a walk keeps: the numbers that it saw, and those that wait.
ghost use Rattle.std.specs.Prelude.{◌≡◌, ◌+◌, ◌<◌, ℕ, List, [], ◌∷◌, ◌++◌, length, not, None, IfOk, OnErr, OnOk};
ghost use Rattle.std.specs.Option.{option_to_list};
ghost use Rattle.state_model.specs.Reached.{is_among, with_number};

use plain_rows::NumberSet;
use schema_model::{Memory, RefNum};
use std::alloc::Global;

/// What a walk keeps: the numbers that it saw, and those that wait. A room is sure to have room for some of each; only
/// where it would have more it may answer out of memory.
pub trait WalkRoom: Drop {
    /// The numbers that were seen, rising.
    ghost seen_in: { Self → List ℕ };

    /// The numbers that wait.
    ghost waiting_in: { Self → List ℕ };

    /// How many seen ones it is sure to have room for.
    ghost sure_seen: { ℕ };

    /// How many that wait it is sure to have room for.
    ghost sure_waiting: { ℕ };

    /// One number more waits.
    fn wait(&mut self, who: RefNum) -> Result<(), Memory>
        ensures waiting { OnOk result (waiting_in self.new ≡ waiting_in self.old ++ who ∷ []) }
        ensures seen { seen_in self.new ≡ seen_in self.old }
        ensures lacks { OnErr result (sure_waiting < length (waiting_in self.old) + 1) };

    /// The number that came last of those that wait, and waits no more.
    fn next(&mut self) -> Option<RefNum>
        ensures waiting { waiting_in self.old ≡ waiting_in self.new ++ option_to_list result }
        ensures none { result ≡ None → waiting_in self.old ≡ [] }
        ensures seen { seen_in self.new ≡ seen_in self.old };

    /// A number is seen. Answers whether it is new.
    fn see(&mut self, who: RefNum) -> Result<bool, Memory>
        ensures new { IfOk result (λ new. new ≡ not (is_among who (seen_in self.old))) }
        ensures seen { OnOk result (seen_in self.new ≡ with_number (seen_in self.old) who) }
        ensures waiting { waiting_in self.new ≡ waiting_in self.old }
        ensures lacks { OnErr result (sure_seen < length (with_number (seen_in self.old) who)) };
}

/// Room in memory, for as many as there is memory for.
#[derive(Drop)]
pub struct MemoryRoom {
    seen: NumberSet,
    waiting: Vec<RefNum>,
}

impl MemoryRoom {
    /// Nothing is seen, and nothing waits. It takes no memory.
    pub fn new(alloc: Global) -> MemoryRoom
        ensures seen { result.seen ≡ [] }
        ensures waiting { result.waiting.items ≡ [] }
    {
        MemoryRoom {
            seen: NumberSet::new(alloc),
            waiting: Vec::new(alloc),
        }
    }

    /// The numbers that were seen, rising.
    pub fn seen(&self, alloc: Global) -> Result<Vec<RefNum>, Memory>
        ensures { IfOk result (λ ns. ns.items ≡ self.now.seen) }
    {
        self.seen.to_vec(alloc)
    }
}

impl WalkRoom for MemoryRoom {
    ghost seen_in = { λ r. r.seen };

    ghost waiting_in = { λ r. r.waiting.items };

    ghost sure_seen = { 0 };

    ghost sure_waiting = { 0 };

    fn wait(&mut self, who: RefNum) -> Result<(), Memory> {
        self.waiting.push(who)?;
        Ok(())
    }

    fn next(&mut self) -> Option<RefNum> {
        self.waiting.pop()
    }

    fn see(&mut self, who: RefNum) -> Result<bool, Memory> {
        self.seen.insert(who)
    }
}
