//! What the place of an operation is declared to hold, and the empty row of a link that it is given.
ghost use Rattle.std.specs.Prelude.{◌≡◌, [], Some, option_and_then};
ghost use Rattle.std.specs.Option.{option_map, option_map_or};
ghost use Rattle.schema_model.specs.declared.class.FieldDecl.{FieldDecl};
ghost use Rattle.schema_model.specs.Classes.{home_field};
ghost use Rattle.state_model.specs.declared.row.Row.TheVariants.{Array};
ghost use Rattle.state_model.specs.declared.place.Expected.TheVariants.{Item as AnItem};
ghost use Rattle.state_model.specs.Places.{collection_of};
ghost use Rattle.wire_model.specs.Grammar.{expects_at, declared_class, new_instance, new_collection};

use lists::{Rising, Seq};
use schema_model::{Home, Item, Schema, Shape, TypeNum};
use state_model::{Expected, Row, field_expects, item_expects};
use std::alloc::Global;
use wire_model::OpKey;

/// What the place at a key of a holder is declared to hold.
pub fn expected_at(schema: &Schema, holder: &Row, key: &OpKey) -> Option<Expected>
    ensures { result ≡ expects_at schema.now holder.now key.now }
{
    match holder {
        Row::Struct(class, _) => match key {
            OpKey::Field(index) => field_expects(schema, *class, *index),
            OpKey::Item(_) | OpKey::Named(_, _) => None,
        },
        Row::Map(home, _) => item_expects(schema, *home),
        Row::Array(home, _) => item_expects(schema, *home),
        Row::Set(home, _) => item_expects(schema, *home),
    }
}

/// An instance without fields: of the marked class, or without a mark of the declared one.
pub fn new_instance(alloc: Global, mark: Option<TypeNum>, expected: Option<Expected>) -> Row
    ensures { result ≡ new_instance mark expected }
{
    let class = match mark {
        Some(class) => class,
        None => declared_class(expected),
    };
    Row::Struct(class, Rising::new(alloc))
}

// The class of which a place is declared to hold instances.
fn declared_class(expected: Option<Expected>) -> TypeNum
    ensures { result ≡ declared_class expected }
{
    match expected {
        Some(Expected::Item(item)) => instance_class(item),
        Some(Expected::Collection(_)) => TypeNum(0),
        None => TypeNum(0),
    }
}

// The class of an item that is an instance.
fn instance_class(item: Item) -> TypeNum
    ensures { result ≡ declared_class (Some (AnItem item)) }
{
    match item {
        Item::Class(class) => class,
        Item::Scalar(_) => TypeNum(0),
    }
}

/// A collection without items, of the home that a place is declared to hold.
pub fn new_collection(alloc: Global, schema: &Schema, expected: Option<Expected>) -> Row
    ensures { result ≡ new_collection schema.now expected }
{
    match expected {
        Some(expected) => collection_expected(alloc, schema, expected),
        None => Row::Struct(TypeNum(0), Rising::new(alloc)),
    }
}

// The empty collection that a place is declared to hold.
fn collection_expected(alloc: Global, schema: &Schema, expected: Expected) -> Row
    ensures { result ≡ new_collection schema.now (Some expected) }
{
    match expected {
        Expected::Collection(home) => {
            let shape = shape_of(schema, &home);
            collection_of(alloc, home, shape)
        }
        Expected::Item(_) => Row::Struct(TypeNum(0), Rising::new(alloc)),
    }
}

// The shape of a home.
fn shape_of(schema: &Schema, home: &Home) -> Option<Shape>
    ensures { result ≡ option_map (λ (f : FieldDecl). f.shape) (home_field schema.now home.now) }
{
    Some(schema.home_field(*home)?.shape)
}

// The empty collection of a home and shape; an array where the home has no shape of a collection.
fn collection_of(alloc: Global, home: Home, shape: Option<Shape>) -> Row
    ensures { result ≡ option_map_or (λ r. r) (option_and_then (collection_of home) shape) (Array home []) }
{
    match shape {
        Some(Shape::Map(_)) => Row::Map(home, Rising::new(alloc)),
        Some(Shape::Set(_)) => Row::Set(home, Rising::new(alloc)),
        Some(Shape::Array(_)) => Row::Array(home, Seq::new(alloc)),
        Some(Shape::One(_)) => Row::Array(home, Seq::new(alloc)),
        None => Row::Array(home, Seq::new(alloc)),
    }
}
