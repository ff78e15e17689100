//! Who holds a row.
ghost use Rattle.std.specs.Prelude.{◌≡◌, ◌==◌, not, [], filter, length, nat_le, nat_lt, slice_get, is_ok, if◌then◌else◌};
ghost use Rattle.std.specs.List.{prefix_len};
ghost use Rattle.state_model.specs.Reached.{is_among};
ghost use Rattle.instance_table.specs.Holders.{AscendsFrom, is_holder, with_holder, without_one};

use schema_model::{Memory, RefNum};
use std::alloc::Global;
use std::marker::Model;

/// The holders of the places that hold a row, rising; one that holds it in several places stands as often. A holder is
/// found in logarithmic time; adding and taking one moves those behind it.
#[derive(Drop)]
pub struct Holders {
    numbers: Vec<RefNum>,
}

impl Model for Holders {
    ghost use Rattle.std.specs.Prelude.{ℕ, List};
    ghost use Rattle.instance_table.specs.Holders.{AscendsFrom};

    ghost Value = { List ℕ };

    ghost view = { λ h. h.numbers.items };

    ghost invariant = { λ h. AscendsFrom 0 h.numbers.items };
}

impl Holders {
    /// No holders. They take no memory.
    pub fn new(alloc: Global) -> Self
        ensures { result ≡ [] }
    {
        Holders {
            numbers: Vec::new(alloc),
        }
    }

    /// How many places hold the row.
    pub fn len(&self) -> usize
        ensures { result ≡ length self.now }
    {
        self.numbers.len()
    }

    /// The holder of the n-th place.
    pub fn at(&self, n: usize) -> Option<RefNum>
        ensures { result ≡ slice_get self.now n }
    {
        self.numbers.get(n).copied()
    }

    /// The holders of all places.
    pub fn as_slice(&self) -> &[RefNum]
        ensures { result.now ≡ self.now }
    {
        self.numbers.as_slice()
    }

    /// Whether a row is one of the holders.
    pub fn has(&self, holder: RefNum) -> bool
        ensures { result ≡ is_among holder self.now }
    {
        self.stands_at(self.first_from(holder), holder)
    }

    /// One place more of a holder.
    pub fn add(&mut self, holder: RefNum) -> Result<(), Memory>
        ensures { self.new ≡ (if is_ok result then with_holder holder self.old else self.old) }
    {
        let at = self.last_to(holder);
        self.numbers.insert(at, holder)?;
        Ok(())
    }

    /// One place less of a holder, where it is one.
    pub fn take_one(&mut self, holder: RefNum)
        ensures { self.new ≡ without_one holder self.old }
    {
        let at = self.first_from(holder);
        if self.stands_at(at, holder) {
            self.numbers.remove(at);
        }
    }

    /// No place of a holder any more.
    pub fn take_all(&mut self, holder: RefNum)
        ensures { self.new ≡ filter (λ n. not (n == holder)) self.old }
    {
        let from = self.first_from(holder);
        let to = self.last_to(holder);
        self.numbers.drain(from..to);
    }

    // Whether this holder's place stands at an index.
    fn stands_at(&self, at: usize, holder: RefNum) -> bool
        ensures { result ≡ is_holder holder (slice_get self.now at) }
    {
        match self.at(at) {
            Some(other) => other == holder,
            None => false,
        }
    }

    // How many of the holders are below this one.
    fn first_from(&self, holder: RefNum) -> usize
        ensures value { result ≡ prefix_len (λ n. nat_lt n holder) self.now }
        ensures ascends { AscendsFrom 0 self.now }
    {
        self.numbers.partition_point(|other| *other < holder)
    }

    // How many of the holders are not above this one.
    fn last_to(&self, holder: RefNum) -> usize
        ensures { result ≡ prefix_len (λ n. nat_le n holder) self.now }
    {
        self.numbers.partition_point(|other| *other <= holder)
    }
}
