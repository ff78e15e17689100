//! What a command finds in the row that it changes. It is looked for once.
ghost use Rattle.std.specs.Prelude.{◌≡◌, None, Some, false, if◌then◌else◌, is_none, not, option_copied};
ghost use Rattle.std.specs.Option.{option_map};
ghost use Rattle.state_model.specs.Commands.{has_key, has_value};
ghost use Rattle.command_laws.specs.Accounts.{replaced};
ghost use Rattle.collection_ops.specs.Bodies.{key_item, map_number, set_number, value_item};
ghost use Rattle.instance_table.specs.Bodies.{row_of};
ghost use Rattle.instance_table.specs.Found.{is_absent, item_number};

use crate::body::{Body, field_value};
use collection_ops::{MapBody, SetBody};
use lists::Text;
use schema_model::Value;
use state_model::Command;

/// What stands in a row where a command writes or takes out.
#[derive(Drop)]
pub struct Found<'a> {
    /// What the command needs there isn't there: the field, the key, the position or the value.
    pub absent: bool,
    /// The number of the item of its key or value.
    pub number: Option<u32>,
    /// The value that stands in the place.
    pub value: Option<&'a Value>,
}

// What is found in a place by the value in it.
fn by_value(value: Option<&Value>) -> Found<'_>
    ensures absent { result.absent ≡ is_none (option_copied value.entry) }
    ensures number { result.number ≡ None }
    ensures value { option_copied result.value ≡ option_copied value.entry }
{
    Found {
        absent: value.is_none(),
        number: None,
        value,
    }
}

// What is found of a key.
fn by_key<'a>(items: &'a MapBody, key: &'a Text) -> Found<'a>
    ensures absent { result.absent ≡ not (has_key items.now.items key.now) }
    ensures number { result.number ≡ option_map map_number (key_item items.now.items key.now) }
    ensures value { option_copied result.value ≡ option_map (λ i. i.value) (key_item items.now.items key.now) }
{
    items.know_kept();
    match items.number_of(key.as_str()) {
        Some(number) => Found {
            absent: false,
            number: Some(number),
            value: items.get(number),
        },
        None => Found {
            absent: true,
            number: None,
            value: None,
        },
    }
}

// What is found of a value that goes into a set, where nothing is replaced.
fn to_add<'a>(items: &'a SetBody, value: &'a Value) -> Found<'a>
    ensures absent { result.absent ≡ not (has_value items.now.items value.now) }
    ensures number { result.number ≡ option_map set_number (value_item items.now.items value.now) }
    ensures value { option_copied result.value ≡ None }
{
    let number = items.number_of(value);
    Found {
        absent: number.is_none(),
        number,
        value: None,
    }
}

// What is found of a value that goes out of a set.
fn to_take<'a>(items: &'a SetBody, value: &'a Value) -> Found<'a>
    ensures absent { result.absent ≡ not (has_value items.now.items value.now) }
    ensures number { result.number ≡ option_map set_number (value_item items.now.items value.now) }
    ensures value { option_copied result.value ≡ (if has_value items.now.items value.now then Some value.now else None) }
{
    match items.number_of(value) {
        Some(number) => Found {
            absent: false,
            number: Some(number),
            value: Some(value),
        },
        None => Found {
            absent: true,
            number: None,
            value: None,
        },
    }
}

// A command that needs nothing in the row finds nothing there.
fn by_nothing(_body: &Body) -> Found<'_>
    ensures absent { result.absent ≡ false }
    ensures number { result.number ≡ None }
    ensures value { option_copied result.value ≡ None }
{
    Found {
        absent: false,
        number: None,
        value: None,
    }
}

/// What a command finds in the row that it changes.
pub fn look_up<'a>(command: &'a Command, body: &'a Body) -> Found<'a>
    ensures absent { result.absent ≡ is_absent command.now (row_of body.now) }
    ensures number { result.number ≡ item_number command.now (row_of body.now) }
    ensures value { option_copied result.value ≡ replaced command.now (row_of body.now) }
{
    match (command, body) {
        (Command::Put(_, field, _), Body::Struct(_, fields)) => by_value(field_value(
            fields, *field,
        )),
        (Command::Unset(_, field), Body::Struct(_, fields)) => by_value(field_value(
            fields, *field,
        )),
        (Command::PutKey(_, key, _) | Command::DelKey(_, key), Body::Map(_, items)) => by_key(
            items, key,
        ),
        (Command::SetAt(_, at, _) | Command::DelAt(_, at), Body::Array(_, values)) => by_value(
            values.get(*at),
        ),
        (Command::Add(_, value), Body::Set(_, items)) => to_add(items, value),
        (Command::Del(_, value), Body::Set(_, items)) => to_take(items, value),
        _ => by_nothing(body),
    }
}
