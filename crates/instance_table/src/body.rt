//! The places of a row.
ghost use Rattle.std.specs.Prelude.{◌≡◌, ◌+◌, IfOk, length, map, option_copied, slice_get};
ghost use Rattle.std.specs.Option.{option_map};
ghost use Rattle.lists.specs.Rising.{find};
ghost use Rattle.state_model.specs.Rows.{values_in};
ghost use Rattle.instance_table.specs.Bodies.{IsBehind, row_of, value_in};

use collection_ops::{ArrayBody, MapBody, SetBody};
use schema_model::{Home, Key, Memory, TypeNum, Value};
use state_model::{FieldValues, Row};
use std::alloc::Global;

/// An instance of a class with its present fields, or a collection of a home with its items.
#[derive(Drop)]
pub enum Body {
    Struct(TypeNum, FieldValues),
    Map(Home, MapBody),
    Array(Home, ArrayBody),
    Set(Home, SetBody),
}

/// The value of a field.
pub fn field_value(fields: &FieldValues, field: u8) -> Option<&Value>
    ensures { option_copied result ≡ option_map (λ x. x.value) (find (λ x. x.field) field fields.now) }
{
    let field = fields.get(u32::from(field))?;
    Some(&field.value)
}

// The value of the n-th field.
fn nth_field(fields: &FieldValues, n: usize) -> Option<&Value>
    ensures { option_copied result ≡ slice_get (map (λ x. x.value) fields.now) n }
{
    let field = fields.as_slice().get(n)?;
    Some(&field.value)
}

impl Body {
    /// The value in a place.
    pub fn value_at(&self, key: Key) -> Option<&Value>
        ensures { option_copied result ≡ value_in (row_of self.now) key }
    {
        match (self, key) {
            (Body::Struct(_, fields), Key::Field(field)) => field_value(fields, field),
            (Body::Map(_, items), Key::Item(number)) => items.get(number),
            (Body::Array(_, values), Key::At(at)) => values.get(at),
            (Body::Set(_, items), Key::Item(number)) => items.get(number),
            _ => None,
        }
    }

    /// How many places there are.
    pub fn len(&self) -> usize
        ensures { result ≡ length (values_in (row_of self.now)) }
    {
        match self {
            Body::Struct(_, fields) => fields.len(),
            Body::Map(_, items) => items.len() as usize,
            Body::Array(_, values) => values.len() as usize,
            Body::Set(_, items) => items.len() as usize,
        }
    }

    /// The value in the n-th place, where `behind` is what this call gave for the place before it, and `None` for the
    /// first; and what to give it for the next place.
    pub fn value_nth(&self, n: usize, behind: Option<u32>) -> (Option<&Value>, Option<u32>)
        requires { IsBehind (row_of self.now) n behind }
        ensures value { option_copied result.0 ≡ slice_get (values_in (row_of self.now)) n }
        ensures next { IsBehind (row_of self.now) (n + 1) result.1 }
    {
        match self {
            Body::Struct(_, fields) => (nth_field(fields, n), None),
            Body::Map(_, items) => match items.after(behind) {
                Some(item) => (Some(&item.value), Some(item.number)),
                None => (None, behind),
            },
            Body::Array(_, values) => (values.nth(n), None),
            Body::Set(_, items) => match items.after(behind) {
                Some(item) => (Some(&item.value), Some(item.number)),
                None => (None, behind),
            },
        }
    }

    /// A row with the same places.
    pub fn copy_row(&self, alloc: Global) -> Result<Row, Memory>
        ensures { IfOk result (λ r. r ≡ row_of self.now) }
    {
        match self {
            Body::Struct(class, fields) => Ok(Row::Struct(*class, fields.copy(alloc)?)),
            Body::Map(home, items) => Ok(Row::Map(*home, items.copy_items(alloc)?)),
            Body::Array(home, values) => Ok(Row::Array(*home, values.copy_items(alloc)?)),
            Body::Set(home, items) => Ok(Row::Set(*home, items.copy_items(alloc)?)),
        }
    }
}
