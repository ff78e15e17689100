//! Values by what their places are declared to hold.
ghost use Rattle.std.specs.Prelude.{◌≡◌, Some, option_copied};
ghost use Rattle.schema_model.specs.Fits.{is_of_kind};
ghost use Rattle.schema_model.specs.declared.value.Value.TheVariants as value;
ghost use Rattle.state_model.specs.Rows.{row_at};
ghost use Rattle.state_model.specs.Sound.{is_collection_of, is_instance_of, is_of_type};
ghost use Rattle.state_model.specs.Commands.{first_cause, is_past_range};
ghost use Rattle.instance_table.specs.Amounts.{type_causes};
ghost use Rattle.instance_table.specs.Bodies.{row_of};
ghost use Rattle.instance_table.specs.Nodes.{rows_in};

use crate::body::Body;
use crate::nodes::Nodes;
use schema_model::{Home, Item, RefNum, ScalarKind, Schema, TypeNum, Value};
use state_model::{Expected, TableFault};

/// Whether a value is a scalar of a kind, whatever its range.
fn is_of_kind(value: &Value, kind: ScalarKind) -> bool
    ensures { result ≡ is_of_kind kind value.now }
{
    match value {
        Value::Whole(_) => !matches!(kind, ScalarKind::Str | ScalarKind::Bool),
        Value::Str(_) => kind == ScalarKind::Str,
        Value::Truth(_) => kind == ScalarKind::Bool,
        Value::Link(_) => false,
    }
}

/// Whether a row is an instance of a class or of a descendant.
fn is_instance_of(schema: &Schema, class: TypeNum, body: &Body) -> bool
    ensures { result ≡ is_instance_of schema.now class (Some (row_of body.now)) }
{
    match body {
        Body::Struct(own, _) => schema.is_kind_of(*own, class),
        _ => false,
    }
}

/// Whether a row is a collection of a home.
fn is_collection_of(home: Home, body: &Body) -> bool
    ensures { result ≡ is_collection_of home (Some (row_of body.now)) }
{
    match body {
        Body::Struct(..) => false,
        Body::Map(own, _) | Body::Array(own, _) | Body::Set(own, _) => *own == home,
    }
}

/// Whether a number is that of an instance of a class or of a descendant.
fn leads_to_instance(schema: &Schema, nodes: &Nodes, class: TypeNum, who: RefNum) -> bool
    ensures { result ≡ is_instance_of schema.now class (row_at (rows_in nodes.now) who) }
{
    match nodes.get(who) {
        Some(node) => is_instance_of(schema, class, &node.body),
        None => false,
    }
}

/// Whether a number is that of a collection of a home.
fn leads_to_collection(nodes: &Nodes, home: Home, who: RefNum) -> bool
    ensures { result ≡ is_collection_of home (row_at (rows_in nodes.now) who) }
{
    match nodes.get(who) {
        Some(node) => is_collection_of(home, &node.body),
        None => false,
    }
}

/// Whether a number is that of a row of what is declared.
fn leads_to(schema: &Schema, nodes: &Nodes, expected: &Expected, who: RefNum) -> bool
    ensures { result ≡ is_of_type schema.now (rows_in nodes.now) expected.now (value.Link who) }
{
    match expected {
        Expected::Item(Item::Scalar(_)) => false,
        Expected::Item(Item::Class(class)) => leads_to_instance(schema, nodes, *class, who),
        Expected::Collection(home) => leads_to_collection(nodes, *home, who),
    }
}

/// Whether a value is of what is declared, whatever its range.
fn is_of_type(schema: &Schema, nodes: &Nodes, expected: &Expected, value: &Value) -> bool
    ensures { result ≡ is_of_type schema.now (rows_in nodes.now) expected.now value.now }
{
    match value {
        Value::Link(who) => leads_to(schema, nodes, expected, *who),
        _ => match expected {
            Expected::Item(Item::Scalar(kind)) => is_of_kind(value, *kind),
            _ => false,
        },
    }
}

// Whether a whole number is outside the range of its kind.
fn is_past_range(value: &Value, expected: &Expected) -> bool
    ensures { result ≡ is_past_range (Some value.now) (Some expected.now) }
{
    match (value, expected) {
        (Value::Whole(_), Expected::Item(Item::Scalar(kind))) => !value.fits(*kind),
        _ => false,
    }
}

// The first cause in a value by what its place is declared to hold.
fn value_cause(
    schema: &Schema,
    nodes: &Nodes,
    value: &Value,
    expected: &Expected,
) -> Option<TableFault>
    ensures { result ≡ first_cause (type_causes schema.now (rows_in nodes.now) (Some value.now) (Some expected.now)) }
{
    if !is_of_type(schema, nodes, expected, value) {
        return Some(TableFault::WrongType);
    }
    if is_past_range(value, expected) {
        return Some(TableFault::OutOfRange);
    }
    None
}

/// The first cause in the value that is put, by what its place is declared to hold.
pub fn type_cause(
    schema: &Schema,
    nodes: &Nodes,
    value: Option<&Value>,
    expected: &Option<Expected>,
) -> Option<TableFault>
    ensures { result ≡ first_cause (type_causes schema.now (rows_in nodes.now) (option_copied value.entry) expected.now) }
{
    match (value, expected) {
        (Some(value), Some(expected)) => value_cause(schema, nodes, value, expected),
        _ => None,
    }
}
