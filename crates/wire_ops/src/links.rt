ghost use Rattle.std.specs.Prelude.{◌≡◌, [], Some, OnOk, OnErr};
ghost use Rattle.wire_ops.specs.Places.{IsFirstPlace, NotesAlso, NotesNoMore, NotesAt, NotesInstead};

use lists::Memory;
use schema_model::Value;
use std::alloc::Global;
use std::collections::BTreeSet;
use std::marker::Model;

/// The places at which each link stands, which contracts see as pairs of a row's number and a
/// place. All calls take logarithmic time.
#[derive(Drop)]
pub struct LinkPlaces {
    pairs: BTreeSet<(u32, u64)>,
}

impl Model for LinkPlaces {
    ghost use Rattle.std.specs.Prelude.{ℕ, List};

    ghost Value = { List (ℕ × ℕ) };

    ghost view = { λ s. s.pairs.keys };
}

impl LinkPlaces {
    /// No places. They take no memory.
    pub(crate) fn new(alloc: Global) -> LinkPlaces
        ensures { result ≡ [] }
    {
        LinkPlaces {
            pairs: BTreeSet::new(alloc),
        }
    }

    /// The first place of a link to a row.
    pub(crate) fn first(&self, who: u32) -> Option<u64>
        ensures { IsFirstPlace self.now who result }
    {
        let (found, place) = self.pairs.range((who, 0)..).next()?;
        if *found == who { Some(*place) } else { None }
    }

    /// A value stands at a place besides: its place is noted where it is a link. An `Err` changes
    /// nothing.
    pub(crate) fn add(&mut self, value: &Value, place: u64) -> Result<(), Memory>
        ensures ok { OnOk result (NotesAlso (Some value.now) place self.old self.new) }
        ensures err { OnErr result (self.new ≡ self.old) }
    {
        if let Value::Link(who) = value {
            self.pairs.insert((who.0, place))?;
        }
        Ok(())
    }

    /// A value stands at a place no more: its place is noted no more where it is a link.
    pub(crate) fn remove(&mut self, value: &Value, place: u64)
        ensures { NotesNoMore (Some value.now) place self.old self.new }
    {
        if let Value::Link(who) = value {
            self.pairs.remove(&(who.0, place));
        }
    }

    /// A value stands at a place where another one stood: its link is noted, and the other's no more.
    /// An `Err` changes nothing.
    pub(crate) fn exchange(&mut self, old: &Value, new: &Value, place: u64) -> Result<(), Memory>
        requires { NotesAt (Some old.now) place self.old }
        ensures ok { OnOk result (NotesInstead (Some new.now) place self.old self.new) }
        ensures err { OnErr result (self.new ≡ self.old) }
    {
        self.add(new, place)?;
        if !old.same(new) {
            self.remove(old, place);
        }
        Ok(())
    }

    /// No link stands anywhere.
    pub(crate) fn clear(&mut self)
        ensures { self.new ≡ [] }
    {
        self.pairs.clear();
    }
}
