//! How many places hold each number.
ghost use Rattle.std.specs.Prelude.{◌≡◌, ◌-◌, ◌==◌, ℕ, not, IfOk};
ghost use Rattle.state_laws.specs.Counts.{count_of};
ghost use Rattle.plain_rows.specs.Counts.{counted};

use schema_model::{Memory, RefNum};
use std::alloc::Global;
use std::collections::BTreeMap;
use std::marker::Model;

/// How many places hold each number. Contracts see the numbers with their counts.
#[derive(Drop)]
pub struct HolderCounts {
    counts: BTreeMap<u32, usize>,
}

impl Model for HolderCounts {
    ghost use Rattle.std.specs.Prelude.{ℕ, List};

    ghost Value = { List (ℕ × ℕ) };

    ghost view = { λ c. c.counts.entries };
}

impl HolderCounts {
    /// How often each number stands among these.
    pub fn of(alloc: Global, links: &[RefNum]) -> Result<HolderCounts, Memory>
        ensures { IfOk result (λ counts. (k : ℕ) → counted counts k ≡ count_of k links.now) }
    {
        let mut counts = BTreeMap::new(alloc);
        for link in links {
            let count = counts.get(&link.0).copied().unwrap_or(0);
            counts.insert(link.0, count + 1)?;
        }
        Ok(HolderCounts { counts })
    }

    /// A place holds the number.
    pub fn is_held(&self, number: RefNum) -> bool
        ensures { result ≡ not (counted self.now number == 0) }
    {
        self.counts.get(&number.0).copied().unwrap_or(0) != 0
    }

    /// One place fewer for each of these.
    pub fn lower(&mut self, links: &[RefNum])
        ensures { (k : ℕ) → counted self.new k ≡ counted self.old k - count_of k links.now }
    {
        for link in links {
            if let Some(count) = self.counts.get_mut(&link.0) {
                *count = count.saturating_sub(1);
            }
        }
    }
}
