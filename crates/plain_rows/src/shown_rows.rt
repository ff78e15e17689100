//! Rows with the places alone that a view shows.
ghost use Rattle.std.specs.Prelude.{◌≡◌, filter, IfOk};
ghost use Rattle.state_model.specs.declared.row.MapItem.{MapItem};
ghost use Rattle.state_model.specs.declared.row.SetItem.{SetItem};
ghost use Rattle.state_model.specs.Shown.{shown};
ghost use Rattle.plain_rows.specs.Views.{view_row, view_rows, view_shows, view_shows_item};

use crate::field_table::{field_at, home_view_field, view_fields};
use crate::members::Members;
use crate::shown::{shows_field, shows_item};
use crate::view_fields::{ViewField, ViewFields};
use lists::{Copied, Rising, Seq};
use schema_model::{Memory, Pair, RefNum, Schema, TypeNum};
use state_model::{FieldValues, MapItems, Row, RowEntry, Rows, SetItems, Values};
use std::alloc::Global;

// The shown fields of an instance of a class.
fn shown_fields(
    alloc: Global,
    table: &ViewFields,
    members: &Members,
    who: RefNum,
    class: TypeNum,
    fields: &FieldValues,
) -> Result<FieldValues, Memory>
    ensures { IfOk result (λ left. left ≡ filter (view_shows table.now members.now who class) fields.now) }
{
    let mut out = Rising::new(alloc);
    if fields.is_empty() {
        return Ok(out);
    }
    for field in fields.as_slice() {
        let declared = field_at(table, class, field.field);
        if shows_field(members, who, &field.value, declared) {
            out.push(field.copy(alloc)?)?;
        }
    }
    Ok(out)
}

// The shown items of a map whose home has this declaration.
fn shown_map_items(
    alloc: Global,
    members: &Members,
    who: RefNum,
    home: Option<ViewField>,
    items: &MapItems,
) -> Result<MapItems, Memory>
    ensures { IfOk result (λ left. left ≡ filter (λ (i : MapItem). view_shows_item members.now who home i.value) items.now) }
{
    let mut out = Rising::new(alloc);
    if items.is_empty() {
        return Ok(out);
    }
    for item in items.as_slice() {
        if shows_item(members, who, home, &item.value) {
            out.push(item.copy(alloc)?)?;
        }
    }
    Ok(out)
}

// The shown items of an array, in their order.
fn shown_values(
    alloc: Global,
    members: &Members,
    who: RefNum,
    home: Option<ViewField>,
    values: &Values,
) -> Result<Values, Memory>
    ensures { IfOk result (λ left. left ≡ filter (view_shows_item members.now who home) values.now) }
{
    let mut out = Seq::new(alloc);
    for value in values.as_slice() {
        if shows_item(members, who, home, value) {
            out.push(value.copy(alloc)?)?;
        }
    }
    Ok(out)
}

// The shown items of a set whose home has this declaration.
fn shown_set_items(
    alloc: Global,
    members: &Members,
    who: RefNum,
    home: Option<ViewField>,
    items: &SetItems,
) -> Result<SetItems, Memory>
    ensures { IfOk result (λ left. left ≡ filter (λ (i : SetItem). view_shows_item members.now who home i.value) items.now) }
{
    let mut out = Rising::new(alloc);
    if items.is_empty() {
        return Ok(out);
    }
    for item in items.as_slice() {
        if shows_item(members, who, home, &item.value) {
            out.push(item.copy(alloc)?)?;
        }
    }
    Ok(out)
}

// A row with its shown places alone.
fn shown_row(
    alloc: Global,
    table: &ViewFields,
    members: &Members,
    who: RefNum,
    row: &Row,
) -> Result<Row, Memory>
    ensures { IfOk result (λ left. left ≡ view_row table.now members.now who row.now) }
{
    match row {
        Row::Struct(class, fields) => Ok(Row::Struct(
            *class,
            shown_fields(alloc, table, members, who, *class, fields)?,
        )),
        Row::Map(home, items) => {
            let declared = home_view_field(table, *home);
            Ok(Row::Map(
                *home,
                shown_map_items(alloc, members, who, declared, items)?,
            ))
        }
        Row::Array(home, values) => {
            let declared = home_view_field(table, *home);
            Ok(Row::Array(*home, shown_values(alloc, members, who, declared, values)?))
        }
        Row::Set(home, items) => {
            let declared = home_view_field(table, *home);
            Ok(Row::Set(
                *home,
                shown_set_items(alloc, members, who, declared, items)?,
            ))
        }
    }
}

// The rows, each with its shown places alone, by the table of fields.
fn rows_by_table(
    alloc: Global,
    table: &ViewFields,
    members: &Members,
    rows: &Rows,
) -> Result<Rows, Memory>
    ensures { IfOk result (λ left. left ≡ view_rows table.now members.now rows.now) }
{
    let mut out = Rows::new(alloc);
    for entry in rows.as_slice() {
        out.push(RowEntry {
            who: entry.who,
            row: shown_row(alloc, table, members, entry.who, &entry.row)?,
        })?;
    }
    Ok(out)
}

/// The rows, each with its shown places alone.
pub fn shown_rows(
    alloc: Global,
    schema: &Schema,
    rows: &Rows,
    pairs: &[Pair],
) -> Result<Rows, Memory>
    ensures { IfOk result (λ left. left ≡ shown schema.now pairs.now rows.now) }
{
    let table = view_fields(alloc, schema)?;
    let members = Members::of(alloc, pairs)?;
    rows_by_table(alloc, &table, &members, rows)
}
