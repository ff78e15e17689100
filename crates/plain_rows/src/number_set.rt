//! Sets of row numbers.
ghost use Rattle.std.specs.Prelude.{◌≡◌, not, [], IfOk, OnErr, OnOk};
ghost use Rattle.lists.specs.Rising.{RisesFrom};
ghost use Rattle.lists.specs.Rising.{remove as without};
ghost use Rattle.state_model.specs.Reached.{is_among, with_number};

use schema_model::{Memory, RefNum};
use std::alloc::Global;
use std::collections::BTreeSet;
use std::marker::Model;

/// Numbers of rows, which contracts see as the list of them, rising. Each call but `to_vec` takes
/// steps as the logarithm of how many there are.
#[derive(Drop)]
pub struct NumberSet {
    numbers: BTreeSet<u32>,
}

impl Model for NumberSet {
    ghost use Rattle.std.specs.Prelude.{ℕ, List};
    ghost use Rattle.lists.specs.Rising.{RisesFrom};

    ghost Value = { List ℕ };

    ghost view = { λ s. s.numbers.keys };

    ghost invariant = { λ s. RisesFrom (λ n. n) 0 s.numbers.keys };
}

impl NumberSet {
    /// No numbers. They take no memory.
    pub fn new(alloc: Global) -> NumberSet
        ensures { result ≡ [] }
    {
        NumberSet {
            numbers: BTreeSet::new(alloc),
        }
    }

    /// The number is among them.
    pub fn has(&self, number: RefNum) -> bool
        ensures { result ≡ is_among number self.now }
    {
        self.numbers.contains(&number.0)
    }

    /// Adds a number, and answers whether it is new.
    pub fn insert(&mut self, number: RefNum) -> Result<bool, Memory>
        ensures added { IfOk result (λ added. added ≡ not (is_among number self.old)) }
        ensures numbers { OnOk result (self.new ≡ with_number self.old number) }
        ensures err { OnErr result (self.new ≡ self.old) }
    {
        Ok(self.numbers.insert(number.0)?)
    }

    /// Takes a number out, and answers whether it was there.
    pub fn remove(&mut self, number: RefNum) -> bool
        ensures found { result ≡ is_among number self.old }
        ensures rest { self.new ≡ without (λ n. n) number self.old }
    {
        self.numbers.remove(&number.0)
    }

    /// The numbers, rising.
    pub fn to_vec(&self, alloc: Global) -> Result<Vec<RefNum>, Memory>
        ensures numbers { IfOk result (λ ns. ns.items ≡ self.now) }
        ensures rises { RisesFrom (λ n. n) 0 self.now }
    {
        let mut out = Vec::with_capacity(alloc, self.numbers.len())?;
        for number in &self.numbers {
            out.push(RefNum(*number))?;
        }
        Ok(out)
    }
}
