//! Whether classes keep the limits of a schema.
ghost use Rattle.std.specs.Prelude.{◌≡◌, ◌≤◌, List, [], length, nat_le, slice_get, unwrap_or, option_and_then};
ghost use Rattle.std.specs.List.{list_all};
ghost use Rattle.schema_model.specs.declared.class.Class.{Class};
ghost use Rattle.schema_model.specs.declared.class.FieldDecl.{FieldDecl};
ghost use Rattle.schema_model.specs.Classes.{is_kept, is_earlier, parents_earlier, item_of, item_in_range, fields_from, most_classes, most_fields, Declared};

use crate::class::{Class, FieldDecl, Item};
use crate::limits::{MOST_CLASSES, MOST_FIELDS};
use crate::number::TypeNum;

/// These classes make a schema with this one as the root's.
pub fn makes_schema(classes: &[Class], root: TypeNum) -> bool
    ensures { result ≡ is_kept (record { classes = classes.now; root = root }) }
{
    classes.len() <= MOST_CLASSES
        && (root.0 as usize) < classes.len()
        && are_parents_earlier(classes)
        && are_types_in_range(classes)
        && are_classes_small(classes)
}

fn are_parents_earlier(classes: &[Class]) -> bool
    ensures { result ≡ parents_earlier 0 classes.now }
{
    for (number, class) in classes.iter().enumerate() {
        if !is_earlier(number, class.parent) {
            return false;
        }
    }
    true
}

fn is_earlier(class: usize, parent: Option<TypeNum>) -> bool
    ensures { result ≡ is_earlier class parent }
{
    match parent {
        Some(parent) => (parent.0 as usize) < class,
        None => true,
    }
}

fn are_types_in_range(classes: &[Class]) -> bool
    ensures { result ≡ list_all (λ (c : Class). list_all (λ (f : FieldDecl). item_in_range (length classes.now) (item_of f.shape)) c.own) classes.now }
{
    let count = classes.len();
    classes
        .iter()
        .all(|class| are_fields_in_range(count, class.own.as_slice()))
}

fn are_fields_in_range(count: usize, fields: &[FieldDecl]) -> bool
    ensures { result ≡ list_all (λ (f : FieldDecl). item_in_range count (item_of f.shape)) fields.now }
{
    fields
        .iter()
        .all(|field| is_item_in_range(count, field.shape.item()))
}

fn is_item_in_range(count: usize, item: Item) -> bool
    ensures { result ≡ item_in_range count item }
{
    match item {
        Item::Scalar(_) => true,
        Item::Class(class) => (class.0 as usize) < count,
    }
}

// Each class's fields are counted once: its parent was counted before it.
fn are_classes_small(classes: &[Class]) -> bool
    requires { length classes.now ≤ most_classes }
    ensures { result ≡ list_all (λ (fs : List Declared). nat_le (length fs) most_fields) (fields_from [] classes.now) }
{
    let mut counts = [0; MOST_CLASSES];
    for (number, class) in classes.iter().enumerate() {
        let inherited = inherited_count(&counts[..number], class.parent);
        let count = inherited.saturating_add(class.own.len());
        if count > MOST_FIELDS {
            return false;
        }
        counts[number] = count;
    }
    true
}

fn inherited_count(counts: &[usize], parent: Option<TypeNum>) -> usize
    ensures { result ≡ unwrap_or (option_and_then (slice_get counts.now) parent) 0 }
{
    match parent {
        Some(parent) => counts.get(parent.0 as usize).copied().unwrap_or(0),
        None => 0,
    }
}
