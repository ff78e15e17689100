//! When something of a room lapses.
ghost use Rattle.std.specs.Prelude.{◌≡◌, ℕ, true, not, ◌&&◌, ◌||◌, ◌==◌, [], IfOk, IfSome, OnOk};
ghost use Rattle.std.specs.List.{list_any};
ghost use Rattle.lists.specs.Rising.{RisesFrom};
ghost use Rattle.hub_core.specs.Lapses.{has_lapse, is_moment, is_past, itself};

use lists::Memory;
use std::alloc::Global;
use std::collections::BTreeSet;
use std::marker::Model;

/// Moments in milliseconds with the numbers of rooms, in order: of each room in which something lapses the least moment at
/// which it does.
#[derive(Drop)]
pub struct Lapses {
    keys: BTreeSet<(u64, u64)>,
}

impl Model for Lapses {
    ghost use Rattle.std.specs.Prelude.{ℕ, List};

    ghost Value = { List (ℕ × ℕ) };

    ghost view = { λ l. l.keys.keys };
}

impl Lapses {
    /// None. They take no memory.
    pub fn new(alloc: Global) -> Lapses
        ensures { result ≡ [] }
    {
        Lapses {
            keys: BTreeSet::new(alloc),
        }
    }

    /// Adds the moment of a room.
    pub fn put(&mut self, lapse: u64, serial: u64) -> Result<(), Memory>
        ensures { OnOk result ((at n : ℕ) → has_lapse self.new at n ≡ (((lapse == at) && (serial == n)) || has_lapse self.old at n)) }
    {
        self.keys.insert((lapse, serial))?;
        Ok(())
    }

    /// Takes the moment of a room out.
    pub fn take(&mut self, lapse: u64, serial: u64)
        ensures { (at n : ℕ) → has_lapse self.new at n ≡ (not ((lapse == at) && (serial == n)) && has_lapse self.old at n) }
    {
        self.keys.remove(&(lapse, serial));
    }

    /// Exchanges the moment of a room for another one; either may be none.
    pub fn change(
        &mut self,
        serial: u64,
        before: Option<u64>,
        after: Option<u64>,
    ) -> Result<(), Memory>
        requires { IfSome before (λ at. has_lapse self.old at serial ≡ true) }
        ensures { OnOk result ((at n : ℕ) → has_lapse self.new at n ≡ ((is_moment at after && (serial == n)) || (not (is_moment at before && (serial == n)) && has_lapse self.old at n))) }
    {
        if before == after {
            return Ok(());
        }
        self.take_one(serial, before);
        self.put_one(serial, after)
    }

    /// Takes the moment of a room out, where it has one.
    pub fn take_one(&mut self, serial: u64, lapse: Option<u64>)
        ensures { (at n : ℕ) → has_lapse self.new at n ≡ (not (is_moment at lapse && (serial == n)) && has_lapse self.old at n) }
    {
        if let Some(at) = lapse {
            self.take(at, serial);
        }
    }

    // Adds the moment of a room, where it has one.
    fn put_one(&mut self, serial: u64, lapse: Option<u64>) -> Result<(), Memory>
        ensures { OnOk result ((at n : ℕ) → has_lapse self.new at n ≡ ((is_moment at lapse && (serial == n)) || has_lapse self.old at n)) }
    {
        match lapse {
            Some(at) => self.put(at, serial),
            None => Ok(()),
        }
    }

    /// The numbers of the rooms whose moments have come, rising.
    pub fn due(&self, alloc: Global, now: u64) -> Result<BTreeSet<u64>, Memory>
        ensures rises { IfOk result (λ due. RisesFrom itself 0 due.keys) }
        ensures due { IfOk result (λ due. (n : ℕ) → list_any (λ k. k == n) due.keys ≡ is_past now n self.now) }
    {
        let mut due = BTreeSet::new(alloc);
        'lapses: for (lapse, serial) in self.keys.iter() {
            if *lapse > now {
                break;
            }
            due.insert(*serial)?;
        }
        Ok(due)
    }
}
