//! How many places and bytes of text there are after a command.
ghost use Rattle.std.specs.Prelude.{◌≡◌, ◌≤◌, Some, is_some, option_copied, sum_by, length};
ghost use Rattle.state_model.specs.Rows.{key_bytes, values_in};
ghost use Rattle.state_model.specs.State.{places_limit, text_limit};
ghost use Rattle.state_model.specs.Commands.{value_put};
ghost use Rattle.state_model.specs.Values as texts;
ghost use Rattle.command_laws.specs.Accounts.{key_added, key_taken, one_if, replaced, row_text, text_in_value};
ghost use Rattle.instance_table.specs.Amounts.{places_after, text_after, text_of_place};
ghost use Rattle.instance_table.specs.Bodies.{row_of};
ghost use Rattle.instance_table.specs.Found.{is_absent};

use crate::body::Body;
use crate::found::Found;
use crate::parts::value_put;
use collection_ops::MapBody;
use schema_model::Value;
use state_model::Command;

/// How many bytes of text a value is, where there is one.
pub fn text_size(value: Option<&Value>) -> usize
    ensures { result ≡ text_in_value (option_copied value.entry) }
{
    match value {
        Some(Value::Str(text)) => text.len(),
        _ => 0,
    }
}

// How many bytes the keys of a map are.
fn keys_size(items: &MapBody) -> usize
    requires { sum_by (λ i. length i.key) items.now.items ≤ text_limit }
    ensures { result ≡ sum_by (λ i. length i.key) items.now.items }
{
    let mut size = 0;
    let mut behind = None;
    while let Some(item) = items.after(behind) {
        size += item.key.len();
        behind = Some(item.number);
    }
    size
}

// How many bytes the text values of a row are.
fn values_size(body: &Body) -> usize
    requires { sum_by texts.text_size (values_in (row_of body.now)) ≤ text_limit }
    ensures { result ≡ sum_by texts.text_size (values_in (row_of body.now)) }
{
    let count = body.len();
    let mut size = 0;
    let mut behind = None;
    for n in 0..count {
        let (value, next) = body.value_nth(n, behind);
        size += text_size(value);
        behind = next;
    }
    size
}

/// How many bytes the text values and keys of a row are.
pub fn row_text(body: &Body) -> usize
    requires { row_text (row_of body.now) ≤ text_limit }
    ensures { result ≡ row_text (row_of body.now) }
{
    let keys = match body {
        Body::Map(_, items) => keys_size(items),
        Body::Struct(..) | Body::Array(..) | Body::Set(..) => 0,
    };
    keys + values_size(body)
}

// How many bytes the key is that a command adds.
fn key_added(command: &Command, body: &Body, found: &Found<'_>) -> usize
    requires { found.now.absent ≡ is_absent command.now (row_of body.now) }
    ensures { result ≡ key_added command.now (row_of body.now) }
{
    match (command, body) {
        (Command::PutKey(_, key, _), Body::Map(..)) if found.absent => key.len(),
        _ => 0,
    }
}

// How many bytes the key is that a command takes out.
fn key_taken(command: &Command, body: &Body, found: &Found<'_>) -> usize
    requires { found.now.absent ≡ is_absent command.now (row_of body.now) }
    ensures { result ≡ key_taken command.now (row_of body.now) }
{
    match (command, body) {
        (Command::DelKey(_, key), Body::Map(..)) if !found.absent => key.len(),
        _ => 0,
    }
}

/// How many places there are after a command, of so many before.
pub fn places_after(places: usize, command: &Command, body: &Body, found: &Found<'_>) -> usize
    requires places { places ≤ places_limit }
    requires found { option_copied found.now.value ≡ replaced command.now (row_of body.now) }
    ensures { result ≡ places_after command.now (row_of body.now) places }
{
    match command {
        Command::Clear(_) => places.saturating_sub(body.len()),
        _ => {
            let more = places + usize::from(value_put(command).is_some());
            more.saturating_sub(usize::from(found.value.is_some()))
        }
    }
}

/// How many bytes of text there are after a command that changes one place. In 128 bits no sum of three lengths is cut.
pub fn place_text_after(text: usize, command: &Command, body: &Body, found: &Found<'_>) -> u128
    requires absent { found.now.absent ≡ is_absent command.now (row_of body.now) }
    requires value { option_copied found.now.value ≡ replaced command.now (row_of body.now) }
    ensures { result ≡ text_of_place command.now (row_of body.now) text }
{
    let more = text as u128
        + text_size(value_put(command)) as u128
        + key_added(command, body, found) as u128;
    let less = text_size(found.value) as u128 + key_taken(command, body, found) as u128;
    more.saturating_sub(less)
}

/// How many bytes of text there are after a command, of so many before.
pub fn text_after(text: usize, command: &Command, body: &Body, found: &Found<'_>) -> u128
    requires few { row_text (row_of body.now) ≤ text_limit }
    requires absent { found.now.absent ≡ is_absent command.now (row_of body.now) }
    requires value { option_copied found.now.value ≡ replaced command.now (row_of body.now) }
    ensures { result ≡ text_after command.now (row_of body.now) text }
{
    match command {
        Command::Clear(_) => text.saturating_sub(row_text(body)) as u128,
        _ => place_text_after(text, command, body, found),
    }
}
