//! Pairs by their ranks, each with how it stands.
ghost use Rattle.std.specs.Prelude.{◌≡◌, ◌-◌, ◌^◌, ◌<◌, ◌≤◌, [], true, length, None, IfOk, IsSome, slice_get, is_ok, if◌then◌else◌};
ghost use Rattle.std.specs.BTreeMap.{is_at};
ghost use Rattle.std.specs.Map.{set_value};
ghost use Rattle.std.specs.Ordering.{nat_cmp};
ghost use Rattle.lists.specs.Rising.{find, put, remove};
ghost use Rattle.view_members.specs.declared.standing.Standing.TheVariants as standing;
ghost use Rattle.view_members.specs.Standings.{entry_rank, IsKept, standing_of, first_from, itself, ranks_of, pairs_of, is_now, is_changed, is_passed};

use crate::rank::pair_at;
use crate::ranks::Ranks;
use crate::standing::Standing;
use lists::Memory;
use schema_model::Pair;
use std::alloc::Global;
use std::collections::BTreeMap;
use std::marker::Model;

/// How pairs stand, by their ranks, which are below 2^48. Contracts see the entries.
#[derive(Drop)]
pub struct Sets {
    alloc: Global,
    entries: BTreeMap<u64, Standing>,
    // The ranks of the entries that changed, and of those that passed. Both have room for the
    // rank of every entry, so a change of standing takes no memory.
    changed: Ranks,
    passed: Ranks,
}

impl Model for Sets {
    ghost use Rattle.std.specs.Prelude.{ℕ, ◌≡◌, ◌≤◌, List, length};
    ghost use Rattle.view_members.specs.declared.standing.Standing.{Standing};
    ghost use Rattle.view_members.specs.Standings.{IsKept, ranks_of, is_changed, is_passed};

    ghost Value = { List (ℕ × Standing) };

    ghost view = { λ s. s.entries.entries };

    ghost invariant = { λ s. record {
      kept : IsKept s.entries.entries;
      changed : s.changed.numbers ≡ ranks_of is_changed s.entries.entries;
      passed : s.passed.numbers ≡ ranks_of is_passed s.entries.entries;
      room : length s.entries.entries ≤ s.changed.room;
      also_room : length s.entries.entries ≤ s.passed.room;
    } };
}

impl Sets {
    /// No entries. They take no memory.
    pub fn new(alloc: Global) -> Sets
        ensures { result ≡ [] }
    {
        Sets {
            alloc,
            entries: BTreeMap::new(alloc),
            changed: Ranks::new(alloc),
            passed: Ranks::new(alloc),
        }
    }

    pub fn len(&self) -> usize
        ensures { result ≡ length self.now }
    {
        self.entries.len()
    }

    /// Does nothing: its contract says what every value keeps.
    pub fn keeps(&self)
        ensures { IsKept self.now }
    {
        let _ = &self.entries;
    }

    /// How the pair of a rank stands. Takes logarithmic time.
    pub fn get(&self, rank: u64) -> Option<Standing>
        ensures value { result ≡ standing_of rank self.now }
        ensures kept { IsKept self.now }
    {
        self.entries.get(&rank).copied()
    }

    /// The first rank that isn't below this one. Takes logarithmic time.
    pub fn first_from(&self, rank: u64) -> Option<u64>
        ensures value { result ≡ first_from rank self.now }
        ensures kept { IsKept self.now }
    {
        let (first, _) = self.entries.range(rank..).next()?;
        Some(*first)
    }

    /// Adds a spare entry. Takes logarithmic time; an `Err` changes nothing.
    pub fn add_spare(&mut self, rank: u64) -> Result<(), Memory>
        requires below { rank < 2 ^ 48 }
        requires absent { standing_of rank self.old ≡ None }
        ensures { self.new ≡ (if is_ok result then put entry_rank (rank, standing.Spare) self.old else self.old) }
    {
        let len = self.entries.len() + 1;
        self.changed.reserve(len)?;
        self.passed.reserve(len)?;
        self.entries.insert(rank, Standing::Spare)?;
        Ok(())
    }

    /// Changes how the pair of a rank stands. Takes logarithmic time, but for the ranks behind
    /// among those that changed or passed.
    pub fn set(&mut self, rank: u64, standing: Standing)
        requires { IsSome (standing_of rank self.old) }
        ensures { self.new ≡ put entry_rank (rank, standing) self.old }
    {
        write(&mut self.entries, rank, standing);
        mark(&mut self.changed, rank, standing.changed());
        mark(&mut self.passed, rank, standing.passed());
    }

    /// Takes an entry out. Takes as long as `set`.
    pub fn take_out(&mut self, rank: u64)
        ensures { self.new ≡ remove entry_rank rank self.old }
    {
        self.changed.take_out(rank);
        self.passed.take_out(rank);
        self.entries.remove(&rank);
    }

    /// The n-th pair that changed, counted from 0.
    pub fn changed_at(&self, n: usize) -> Option<Pair>
        ensures kept { IsKept self.now }
        ensures value { result ≡ slice_get (pairs_of is_changed self.now) n }
    {
        let rank = self.changed.at(n)?;
        Some(pair_at(rank))
    }

    /// The last rank that changed.
    pub fn last_changed(&self) -> Option<u64>
        ensures value { result ≡ slice_get (ranks_of is_changed self.now) (length (ranks_of is_changed self.now) - 1) }
        ensures kept { IsKept self.now }
    {
        self.changed.last()
    }

    /// The last rank that passed.
    pub fn last_passed(&self) -> Option<u64>
        ensures value { result ≡ slice_get (ranks_of is_passed self.now) (length (ranks_of is_passed self.now) - 1) }
        ensures kept { IsKept self.now }
    {
        self.passed.last()
    }

    /// The members now, rising.
    pub fn pairs(&self) -> Result<Vec<Pair>, Memory>
        ensures { IfOk result (λ ps. ps.items ≡ pairs_of is_now self.now) }
    {
        let mut out = Vec::new(self.alloc);
        for (rank, standing) in &self.entries {
            if standing.is_member() {
                out.push(pair_at(*rank))?;
            }
        }
        Ok(out)
    }
}

// Changes how the pair of a rank stands, if it has an entry.
fn write(entries: &mut BTreeMap<u64, Standing>, rank: u64, standing: Standing)
    ensures { entries.new.entries ≡ set_value (is_at (nat_cmp rank)) entries.old.entries standing }
{
    if let Some(entry) = entries.get_mut(&rank) {
        *entry = standing;
    }
}

// A rank is in or out.
fn mark(ranks: &mut Ranks, rank: u64, stands: bool)
    requires { stands ≡ true → find itself rank ranks.old.numbers ≡ None → length ranks.old.numbers < ranks.old.room }
    ensures numbers { ranks.new.numbers ≡ (if stands then put itself rank ranks.old.numbers else remove itself rank ranks.old.numbers) }
    ensures kept { ranks.old.room ≤ ranks.new.room }
{
    if stands {
        ranks.put(rank);
    } else {
        ranks.take_out(rank);
    }
}
