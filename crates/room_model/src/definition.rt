ghost use Rattle.std.specs.Prelude.{◌≡◌, IfOk};
ghost use Rattle.std.specs.List.{list_any};
ghost use Rattle.std.specs.Str.{bytes_eq};
ghost use Rattle.state_model.specs.Sound.{keys_differ};
ghost use Rattle.room_model.specs.Definitions.{is_room_def, is_within};

use crate::limits::{LONGEST_TIME, MOST_FILTERS, MOST_PLACES};
use lists::{Memory, Seq, Text};
use std::alloc::Global;

pub type Names = Seq<Text>;

pub type Texts = Seq<Text>;

pub type Words = Seq<Text>;

/// A second list with the same texts.
pub fn copy_texts(alloc: Global, texts: &Texts) -> Result<Texts, Memory>
    ensures { IfOk result (λ x. x ≡ texts.now) }
{
    let mut out = Seq::new(alloc);
    for text in texts.as_slice() {
        out.push(text.copy(alloc)?)?;
    }
    Ok(out)
}

/// A kind of room that can be made.
#[derive(Debug, Drop)]
pub struct RoomDef {
    pub name: Text,
    /// How many seats and reservations a room has at most, 1 to `MOST_PLACES`.
    pub max: u32,
    /// How long a reservation lasts, 1 to `LONGEST_TIME` ms.
    pub seat: u64,
    /// The interval of ticks, 1 to `LONGEST_TIME` ms.
    pub patch: u64,
    /// How long the seat of a lost connection is kept, 0 to `LONGEST_TIME` ms; at 0 it isn't.
    pub keep: u64,
    /// The keys of a request's options that have to equal those of the room's creation.
    pub filter: Names,
}

impl RoomDef {
    /// A second definition with the same parts.
    pub fn copy(&self, alloc: Global) -> Result<RoomDef, Memory>
        ensures { IfOk result (λ x. x ≡ self.now) }
    {
        Ok(RoomDef {
            name: self.name.copy(alloc)?,
            max: self.max,
            seat: self.seat,
            patch: self.patch,
            keep: self.keep,
            filter: copy_texts(alloc, &self.filter)?,
        })
    }

    /// Whether a room may be made of it: its places and times are within the limits, and the keys of its filter are few and
    /// differ.
    pub fn is_valid(&self) -> bool
        ensures { result ≡ is_room_def self.now }
    {
        is_within(1, MOST_PLACES, u64::from(self.max))
            && is_within(1, LONGEST_TIME, self.seat)
            && is_within(1, LONGEST_TIME, self.patch)
            && is_within(0, LONGEST_TIME, self.keep)
            && self.filter.len() <= MOST_FILTERS
            && are_different(self.filter.as_slice())
    }
}

// Whether a number is from one to another.
fn is_within(low: u64, high: u64, number: u64) -> bool
    ensures { result ≡ is_within low high number }
{
    low <= number && number <= high
}

// Whether no two names are the same.
fn are_different(names: &[Text]) -> bool
    ensures { result ≡ keys_differ names.now }
{
    let Some((first, rest)) = names.split_first() else {
        return true;
    };
    !is_among(first, rest) && are_different(rest)
}

// Whether a name is among others.
fn is_among(name: &Text, names: &[Text]) -> bool
    ensures { result ≡ list_any (λ n. bytes_eq name.now n) names.now }
{
    names
        .iter()
        .any(|other| name.as_slice() == other.as_slice())
}

pub type Defs = Seq<RoomDef>;
