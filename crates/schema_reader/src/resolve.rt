//! The schema of what was read, where all that it names is declared.
ghost use Rattle.std.specs.Prelude.{◌≡◌, ◌<◌, ◌-◌, ◌^◌, map};
ghost use Rattle.std.specs.List.{flat_map};
ghost use Rattle.text_model.specs.SchemaReading.{class_of, field_of, item_of_word, resolved, shape_of, unknown_field, unknown_lines};
ghost use Rattle.text_model.specs.declared.draft.DraftClass.{DraftClass};
ghost use Rattle.schema_reader.specs.Gives.{Gives, first_unknown, root_place, schema_of_parts};

use crate::draft::Draft;
use crate::kinds::kind_of_word;
use schema_model::{Class, Classes, FieldDecl, Fields, Item, Seq, Shape, TypeNum};
use std::alloc::Global;
use text_model::{DraftClass, DraftField, Grouping, SchemaFault};

/// The item that a word stands for.
fn item_of_word(draft: &Draft, word: &[u8]) -> Option<Item>
    ensures { result ≡ item_of_word draft.now.classes word.now }
{
    match kind_of_word(word) {
        Some(kind) => Some(Item::Scalar(kind)),
        None => draft.place(word).map(Item::Class),
    }
}

/// The shape of items that are grouped so.
fn shape_of(grouping: Grouping, item: Item) -> Shape
    ensures { result ≡ shape_of grouping item }
{
    match grouping {
        Grouping::Alone => Shape::One(item),
        Grouping::Mapped => Shape::Map(item),
        Grouping::Listed => Shape::Array(item),
        Grouping::Gathered => Shape::Set(item),
    }
}

/// A field, where its class is declared.
fn resolve_field(alloc: Global, draft: &Draft, field: &DraftField) -> Result<FieldDecl, SchemaFault>
    ensures { Gives result (first_unknown (unknown_field draft.now.classes field.now) (field_of draft.now.classes field.now)) }
{
    let Some(item) = item_of_word(draft, field.word.as_slice()) else {
        return Err(SchemaFault::UnknownClass(field.line));
    };
    let name = field.name.copy(alloc).map_err(|_| SchemaFault::Memory)?;
    Ok(FieldDecl {
        name,
        shape: shape_of(field.grouping, item),
        tag: field.tag,
    })
}

/// The fields of a class, or the first fault.
fn resolve_fields(
    alloc: Global,
    draft: &Draft,
    fields: &[DraftField],
) -> Result<Fields, SchemaFault>
    ensures { Gives result
        (first_unknown (flat_map (unknown_field draft.now.classes) fields.now) (map (field_of draft.now.classes) fields.now)) }
{
    let mut out = Seq::new(alloc);
    for field in fields {
        let field = resolve_field(alloc, draft, field)?;
        out.push(field).map_err(|_| SchemaFault::Memory)?;
    }
    Ok(out)
}

/// A class, or the first fault.
fn resolve_class(alloc: Global, draft: &Draft, class: &DraftClass) -> Result<Class, SchemaFault>
    ensures { Gives result
        (first_unknown (flat_map (unknown_field draft.now.classes) class.now.own) (class_of draft.now.classes class.now)) }
{
    let own = resolve_fields(alloc, draft, class.own.as_slice())?;
    let name = class.name.copy(alloc).map_err(|_| SchemaFault::Memory)?;
    Ok(Class {
        name,
        parent: class.parent,
        own,
    })
}

/// The classes, or the first fault.
fn resolve_classes(
    alloc: Global,
    draft: &Draft,
    classes: &[DraftClass],
) -> Result<Classes, SchemaFault>
    ensures { Gives result
        (first_unknown (flat_map (λ (c : DraftClass). flat_map (unknown_field draft.now.classes) c.own) classes.now)
        (map (class_of draft.now.classes) classes.now)) }
{
    let mut out = Seq::new(alloc);
    for class in classes {
        let class = resolve_class(alloc, draft, class)?;
        out.push(class).map_err(|_| SchemaFault::Memory)?;
    }
    Ok(out)
}

/// The class of the root, or why there is none behind so many lines.
fn resolve_root(draft: &Draft, count: u32) -> Result<TypeNum, SchemaFault>
    requires { count < 2 ^ 32 - 1 }
    ensures { result ≡ root_place count draft.now.classes draft.now.root }
{
    let Some(root) = draft.root() else {
        return Err(SchemaFault::NoRoot(count + 1));
    };
    match draft.place(root.name.as_slice()) {
        Some(place) => Ok(place),
        None => Err(SchemaFault::UnknownClass(root.line)),
    }
}

/// The classes and the root of what so many lines gave, or the first fault.
pub fn resolve(alloc: Global, draft: &Draft, count: u32) -> Result<(Classes, TypeNum), SchemaFault>
    requires { count < 2 ^ 32 - 1 }
    ensures { Gives (schema_of_parts result) (resolved count draft.now (unknown_lines draft.now)) }
{
    let classes = resolve_classes(alloc, draft, draft.classes())?;
    let root = resolve_root(draft, count)?;
    Ok((classes, root))
}
