ghost use Rattle.std.specs.Prelude.{◌≡◌, IfOk};

use lists::{Copied, Keyed, Rising, Seq, Text};
use schema_model::{Home, Memory, RefNum, TypeNum, Value};
use std::alloc::Global;

/// A present field of an instance.
#[derive(Debug, Drop)]
pub struct FieldValue {
    pub field: u8,
    pub value: Value,
}

impl Copied for FieldValue {
    fn copy(&self, alloc: Global) -> Result<FieldValue, Memory> {
        Ok(FieldValue {
            field: self.field,
            value: self.value.copy(alloc)?,
        })
    }
}

impl Keyed for FieldValue {
    ghost key = { λ f. f.field };

    fn key(&self) -> u32 {
        u32::from(self.field)
    }
}

/// An item of a map. Its number is never used again in this map.
#[derive(Debug, Drop)]
pub struct MapItem {
    pub number: u32,
    pub key: Text,
    pub value: Value,
}

impl Copied for MapItem {
    fn copy(&self, alloc: Global) -> Result<MapItem, Memory> {
        Ok(MapItem {
            number: self.number,
            key: self.key.copy(alloc)?,
            value: self.value.copy(alloc)?,
        })
    }
}

impl Keyed for MapItem {
    ghost key = { λ f. f.number };

    fn key(&self) -> u32 {
        self.number
    }
}

/// An item of a set. Its number is never used again in this set.
#[derive(Debug, Drop)]
pub struct SetItem {
    pub number: u32,
    pub value: Value,
}

impl Copied for SetItem {
    fn copy(&self, alloc: Global) -> Result<SetItem, Memory> {
        Ok(SetItem {
            number: self.number,
            value: self.value.copy(alloc)?,
        })
    }
}

impl Keyed for SetItem {
    ghost key = { λ f. f.number };

    fn key(&self) -> u32 {
        self.number
    }
}

pub type FieldValues = Rising<FieldValue>;

pub type MapItems = Rising<MapItem>;

pub type SetItems = Rising<SetItem>;

pub type Values = Seq<Value>;

/// An instance of a class with its present fields, or a collection of a home with its items.
#[derive(Debug, Drop)]
pub enum Row {
    Struct(TypeNum, FieldValues),
    Map(Home, MapItems),
    Array(Home, Values),
    Set(Home, SetItems),
}

impl Row {
    /// A second row with the same places.
    pub fn copy(&self, alloc: Global) -> Result<Row, Memory>
        ensures { IfOk result (λ x. x ≡ self.now) }
    {
        match self {
            Row::Struct(class, fields) => Ok(Row::Struct(*class, fields.copy(alloc)?)),
            Row::Map(home, items) => Ok(Row::Map(*home, items.copy(alloc)?)),
            Row::Array(home, values) => Ok(Row::Array(*home, values.copy(alloc)?)),
            Row::Set(home, items) => Ok(Row::Set(*home, items.copy(alloc)?)),
        }
    }
}

/// A row with its reference number.
#[derive(Debug, Drop)]
pub struct RowEntry {
    pub who: RefNum,
    pub row: Row,
}

impl RowEntry {
    /// A second entry with the same number and row.
    pub fn copy(&self, alloc: Global) -> Result<RowEntry, Memory>
        ensures { IfOk result (λ x. x ≡ self.now) }
    {
        Ok(RowEntry {
            who: self.who,
            row: self.row.copy(alloc)?,
        })
    }
}

impl Keyed for RowEntry {
    ghost key = { λ e. e.who };

    fn key(&self) -> u32 {
        self.who.0
    }
}
