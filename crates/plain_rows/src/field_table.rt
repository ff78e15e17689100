//! The table of the fields of all classes.
ghost use Rattle.std.specs.Prelude.{◌≡◌, IfOk};
ghost use Rattle.plain_rows.specs.Views.{view_fields as all_view_fields, view_inherited, view_fields_next, view_field_at, home_view_field as view_field_of_home};

use crate::view_fields::{ViewField, ViewFields};
use lists::Seq;
use schema_model::{Class, Home, Memory, Schema, TypeNum};
use std::alloc::Global;

// The fields that a class inherits.
fn inherited(
    alloc: Global,
    earlier: &[Seq<ViewField>],
    parent: Option<TypeNum>,
) -> Result<Seq<ViewField>, Memory>
    ensures { IfOk result (λ fields. fields ≡ view_inherited earlier.now parent) }
{
    let Some(parent) = parent else {
        return Ok(Seq::new(alloc));
    };
    match earlier.get(parent.0 as usize) {
        Some(fields) => Ok(Seq::from_vec(Vec::from_slice(alloc, fields.as_slice())?)),
        None => Ok(Seq::new(alloc)),
    }
}

// The fields of the class behind the earlier ones.
fn next_fields(
    alloc: Global,
    earlier: &[Seq<ViewField>],
    class: &Class,
) -> Result<Seq<ViewField>, Memory>
    ensures { IfOk result (λ fields. fields ≡ view_fields_next earlier.now class.now) }
{
    let mut fields = inherited(alloc, earlier, class.parent)?;
    for field in class.own.as_slice() {
        fields.push(ViewField {
            class: earlier.len(),
            shape: field.shape,
            tag: field.tag,
        })?;
    }
    Ok(fields)
}

/// The fields of all classes of a schema.
pub fn view_fields(alloc: Global, schema: &Schema) -> Result<ViewFields, Memory>
    ensures { IfOk result (λ table. table ≡ all_view_fields schema.now) }
{
    let mut table = Seq::new(alloc);
    for class in schema.classes().as_slice() {
        let fields = next_fields(alloc, table.as_slice(), class)?;
        table.push(fields)?;
    }
    Ok(table)
}

/// The field of a class at an index, in a few steps.
pub fn field_at(table: &ViewFields, class: TypeNum, index: u8) -> Option<ViewField>
    ensures { result ≡ view_field_at table.now class index }
{
    match table.as_slice().get(class.0 as usize) {
        Some(fields) => fields.as_slice().get(usize::from(index)).copied(),
        None => None,
    }
}

/// The field that a home names, where its class declares one at this index.
pub fn home_view_field(table: &ViewFields, home: Home) -> Option<ViewField>
    ensures { result ≡ view_field_of_home table.now home }
{
    match field_at(table, home.class, home.field) {
        Some(field) if field.class == home.class.0 as usize => Some(field),
        _ => None,
    }
}
