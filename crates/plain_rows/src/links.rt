//! The links that rows hold.
ghost use Rattle.std.specs.Prelude.{◌≡◌, ◌++◌, OnOk};
ghost use Rattle.state_model.specs.Values.{held_by};
ghost use Rattle.state_model.specs.Rows.{held_in};
ghost use Rattle.plain_rows.specs.Links.{held_at, held_in_values, held_in_fields, held_in_map, held_in_set};

use schema_model::{Memory, RefNum, Value};
use state_model::{FieldValue, MapItem, Row, Rows, SetItem};

// Adds the number of the row that a value holds.
fn add_link(value: &Value, links: &mut Vec<RefNum>) -> Result<(), Memory>
    ensures { OnOk result (links.new.items ≡ links.old.items ++ held_by value.now) }
{
    if let Value::Link(who) = value {
        links.push(*who)?;
    }
    Ok(())
}

fn add_field_links(fields: &[FieldValue], links: &mut Vec<RefNum>) -> Result<(), Memory>
    ensures { OnOk result (links.new.items ≡ links.old.items ++ held_in_fields fields.now) }
{
    for field in fields {
        add_link(&field.value, links)?;
    }
    Ok(())
}

fn add_map_links(items: &[MapItem], links: &mut Vec<RefNum>) -> Result<(), Memory>
    ensures { OnOk result (links.new.items ≡ links.old.items ++ held_in_map items.now) }
{
    for item in items {
        add_link(&item.value, links)?;
    }
    Ok(())
}

fn add_array_links(values: &[Value], links: &mut Vec<RefNum>) -> Result<(), Memory>
    ensures { OnOk result (links.new.items ≡ links.old.items ++ held_in_values values.now) }
{
    for value in values {
        add_link(value, links)?;
    }
    Ok(())
}

fn add_set_links(items: &[SetItem], links: &mut Vec<RefNum>) -> Result<(), Memory>
    ensures { OnOk result (links.new.items ≡ links.old.items ++ held_in_set items.now) }
{
    for item in items {
        add_link(&item.value, links)?;
    }
    Ok(())
}

/// Adds the numbers that a row holds, place by place.
pub fn add_row_links(row: &Row, links: &mut Vec<RefNum>) -> Result<(), Memory>
    ensures { OnOk result (links.new.items ≡ links.old.items ++ held_in row.now) }
{
    match row {
        Row::Struct(_, fields) => add_field_links(fields.as_slice(), links),
        Row::Map(_, items) => add_map_links(items.as_slice(), links),
        Row::Array(_, values) => add_array_links(values.as_slice(), links),
        Row::Set(_, items) => add_set_links(items.as_slice(), links),
    }
}

/// Adds the numbers that the row of a number holds, where there is one.
pub fn add_links(rows: &Rows, number: RefNum, links: &mut Vec<RefNum>) -> Result<(), Memory>
    ensures { OnOk result (links.new.items ≡ links.old.items ++ held_at rows.now number) }
{
    match rows.get(number) {
        Some(row) => add_row_links(row, links),
        None => Ok(()),
    }
}
