//! What a schema declares of places.
ghost use Rattle.std.specs.Prelude.{◌≡◌, ◌&&◌, is_some};
ghost use Rattle.schema_model.specs.Classes.{item_of};
ghost use Rattle.state_model.specs.Places.{field_expects, instance_class, is_filtered, item_expects, expected_by};

use schema_model::{FieldDecl, Home, Item, Schema, Shape, TypeNum};

/// What a place is declared to hold: an item, or a collection of a home.
#[derive(Clone, Copy, Debug, PartialEq, Eq)]
pub enum Expected {
    Item(Item),
    Collection(Home),
}

/// What the field of a class at an index is declared to hold; None where there is no such field.
pub fn field_expects(schema: &Schema, class: TypeNum, index: u8) -> Option<Expected>
    ensures { result ≡ field_expects schema.now class index }
{
    match schema.declared(class, index) {
        Some((class, field)) => {
            let home = Home {
                class,
                field: index,
            };
            Some(expected_by(field.shape, home))
        }
        None => None,
    }
}

// What a field of this shape and home holds.
fn expected_by(shape: Shape, home: Home) -> Expected
    ensures { result ≡ expected_by shape home }
{
    match shape {
        Shape::One(item) => Expected::Item(item),
        Shape::Map(_) | Shape::Array(_) | Shape::Set(_) => Expected::Collection(home),
    }
}

/// What the items of a collection are declared to be; None where the home is no declared field.
pub fn item_expects(schema: &Schema, home: Home) -> Option<Expected>
    ensures { result ≡ item_expects schema.now home }
{
    let field = schema.home_field(home)?;
    Some(Expected::Item(field.shape.item()))
}

/// Whether an array of a home is filtered: the home is tagged and its items are instances.
pub fn is_filtered(schema: &Schema, home: Home) -> bool
    ensures { result ≡ is_filtered schema.now home }
{
    match schema.home_field(home) {
        None => false,
        Some(field) => is_tagged_list(field),
    }
}

fn is_tagged_list(field: &FieldDecl) -> bool
    ensures { result ≡ (is_some field.now.tag && is_some (instance_class (item_of field.now.shape))) }
{
    field.tag.is_some() && holds_instances(field)
}

fn holds_instances(field: &FieldDecl) -> bool
    ensures { result ≡ is_some (instance_class (item_of field.now.shape)) }
{
    match field.shape.item() {
        Item::Class(_) => true,
        Item::Scalar(_) => false,
    }
}
