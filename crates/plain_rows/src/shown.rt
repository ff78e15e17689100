//! Which places a view shows.
ghost use Rattle.std.specs.Prelude.{◌≡◌};
ghost use Rattle.state_model.specs.Shown.{links_member as link_is_member, tagged_field_shown as tagged_field_is_shown, item_shown as item_is_shown};
ghost use Rattle.plain_rows.specs.Views.{view_shows_field, view_shows_item};

use crate::members::Members;
use crate::view_fields::ViewField;
use schema_model::{Item, RefNum, Shape, Tag, Value};

// The row that a value holds is a member.
fn links_member(members: &Members, tag: Tag, value: &Value) -> bool
    ensures { result ≡ link_is_member members.now tag value.now }
{
    match value {
        Value::Link(who) => members.has(*who, tag),
        Value::Whole(_) | Value::Str(_) | Value::Truth(_) => false,
    }
}

// A tagged field is shown.
fn tagged_field_shown(members: &Members, who: RefNum, tag: Tag, shape: Shape, value: &Value) -> bool
    ensures { result ≡ tagged_field_is_shown members.now who tag shape value.now }
{
    match shape {
        Shape::One(Item::Scalar(_)) => members.has(who, tag),
        Shape::Map(Item::Class(_)) | Shape::Array(Item::Class(_)) | Shape::Set(Item::Class(_)) =>
            true,
        Shape::One(Item::Class(_))
        | Shape::Map(Item::Scalar(_))
        | Shape::Array(Item::Scalar(_))
        | Shape::Set(Item::Scalar(_)) => members.has(who, tag) || links_member(members, tag, value),
    }
}

// An item of a tagged collection is shown.
fn tagged_item_shown(members: &Members, who: RefNum, tag: Tag, item: Item, value: &Value) -> bool
    ensures { result ≡ item_is_shown members.now who item value.now (Some tag) }
{
    match item {
        Item::Scalar(_) => true,
        Item::Class(_) => members.has(who, tag) || links_member(members, tag, value),
    }
}

/// A field of this declaration is shown; one without a declaration is shown to everybody.
pub fn shows_field(
    members: &Members,
    who: RefNum,
    value: &Value,
    declared: Option<ViewField>,
) -> bool
    ensures { result ≡ view_shows_field members.now who value.now declared }
{
    let Some(field) = declared else {
        return true;
    };
    match field.tag {
        Some(tag) => tagged_field_shown(members, who, tag, field.shape, value),
        None => true,
    }
}

/// An item of a collection is shown, where the collection's home has this declaration.
pub fn shows_item(
    members: &Members,
    who: RefNum,
    declared: Option<ViewField>,
    value: &Value,
) -> bool
    ensures { result ≡ view_shows_item members.now who declared value.now }
{
    let Some(field) = declared else {
        return true;
    };
    match field.tag {
        Some(tag) => tagged_item_shown(members, who, tag, field.shape.item(), value),
        None => true,
    }
}
