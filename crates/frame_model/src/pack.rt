//! MessagePack values.
ghost use Rattle.std.specs.Prelude.{◌≡◌, is_ok, if◌then◌else◌, IfOk};
ghost use Rattle.frame_model.specs.PackData.{data_of, items_data, items_more, items_view, members_data, members_more, members_view, no_items, no_members};

use schema_model::{Bytes, Memory, Text};
use std::alloc::Global;

/// How many levels of lists and maps there may be.
pub const MOST_LEVELS: u32 = 32;

/// A MessagePack value. An `Int` is from -2^63 to 2^64 - 1.
#[cycle(pack)]
#[derive(Debug, Drop)]
pub enum Pack {
    Nil,
    Truth(bool),
    Int(i128),
    Str(Text),
    Bin(Bytes),
    List(Packs),
    Map(PackPairs),
}

/// Values one behind another.
#[cycle(pack)]
#[derive(Debug, Drop)]
pub struct Packs {
    items: Vec<Pack>,
}

/// Pairs of a map, in the order of the bytes.
#[cycle(pack)]
#[derive(Debug, Drop)]
pub struct PackPairs {
    items: Vec<(Text, Pack)>,
}

impl Packs {
    /// No values. It takes no memory.
    pub fn new(alloc: Global) -> Packs
        ensures { items_data result ≡ no_items }
    {
        Packs {
            items: Vec::new(alloc),
        }
    }

    /// No values. It takes memory for as many, as `Vec::with_capacity` does.
    pub fn with_capacity(alloc: Global, capacity: usize) -> Result<Packs, Memory>
        ensures { IfOk result (λ p. items_data p ≡ no_items) }
    {
        Ok(Packs {
            items: Vec::with_capacity(alloc, capacity)?,
        })
    }

    /// Values, taken over as they are.
    pub fn from_vec(items: Vec<Pack>) -> Packs
        ensures { items_data result ≡ items_view items.items }
    {
        Packs { items }
    }

    pub fn as_slice(&self) -> &[Pack]
        ensures { items_view result.now ≡ items_data self.now }
    {
        self.items.as_slice()
    }

    /// Adds a value at the end. An `Err` changes nothing.
    pub fn push(&mut self, item: Pack) -> Result<(), Memory>
        ensures { items_data self.new ≡ (if is_ok result then items_more (items_data self.old) (data_of item) else items_data self.old) }
    {
        self.items.push(item)?;
        Ok(())
    }
}

impl PackPairs {
    /// No pairs. It takes no memory.
    pub fn new(alloc: Global) -> PackPairs
        ensures { members_data result ≡ no_members }
    {
        PackPairs {
            items: Vec::new(alloc),
        }
    }

    /// No pairs. It takes memory for as many, as `Vec::with_capacity` does.
    pub fn with_capacity(alloc: Global, capacity: usize) -> Result<PackPairs, Memory>
        ensures { IfOk result (λ p. members_data p ≡ no_members) }
    {
        Ok(PackPairs {
            items: Vec::with_capacity(alloc, capacity)?,
        })
    }

    /// Pairs, taken over as they are.
    pub fn from_vec(items: Vec<(Text, Pack)>) -> PackPairs
        ensures { members_data result ≡ members_view items.items }
    {
        PackPairs { items }
    }

    pub fn as_slice(&self) -> &[(Text, Pack)]
        ensures { members_view result.now ≡ members_data self.now }
    {
        self.items.as_slice()
    }

    /// Adds a pair at the end. An `Err` changes nothing.
    pub fn push(&mut self, item: (Text, Pack)) -> Result<(), Memory>
        ensures { members_data self.new ≡ (if is_ok result then members_more (members_data self.old) item.0 (data_of item.1) else members_data self.old) }
    {
        self.items.push(item)?;
        Ok(())
    }
}
