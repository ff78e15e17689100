//! Why a command is refused: each cause, over the row that the command changes.
ghost use Rattle.std.specs.Prelude.{◌≡◌, ◌||◌, is_some, option_and_then, option_copied};
ghost use Rattle.std.specs.Option.{option_map};
ghost use Rattle.schema_model.specs.Classes.{home_of};
ghost use Rattle.state_model.specs.Places.{empty_collection};
ghost use Rattle.state_model.specs.Commands.{adds_place, gives_number, is_long_key, is_long_text, is_no_field, is_no_item, is_present, value_put, expected_for};
ghost use Rattle.instance_table.specs.Bodies.{row_of};
ghost use Rattle.instance_table.specs.Found.{is_absent};

use crate::amounts::text_size;
use crate::body::Body;
use crate::found::Found;
use crate::parts::value_put;
use schema_model::{Home, Item, Schema, Shape, Value};
use state_model::{Command, Expected, field_expects, item_expects};

/// How many bytes one text value or key may have.
const ONE_TEXT_LIMIT: usize = 4096;

/// Whether a home is that of a declared collection field.
fn is_collection(schema: &Schema, home: Home) -> bool
    ensures { result ≡ is_some (option_and_then (empty_collection schema.now) (home_of schema.now home.class home.field)) }
{
    let Some(home) = schema.home(home.class, home.field) else {
        return false;
    };
    match schema.home_field(home) {
        Some(field) => !matches!(field.shape, Shape::One(_)),
        None => false,
    }
}

/// Whether the class or the field isn't declared, or the row isn't of the shape that the command needs.
pub fn is_no_field(
    schema: &Schema,
    command: &Command,
    body: Option<&Body>,
    expected: &Option<Expected>,
) -> bool
    requires { expected.now ≡ expected_for schema.now command.now (option_map row_of (option_copied body)) }
    ensures { result ≡ is_no_field schema.now command.now (option_map row_of (option_copied body.entry)) }
{
    match (command, body) {
        (Command::Make(class), _) => class.0 as usize >= schema.classes().len(),
        (Command::MakeFor(home), _) => !is_collection(schema, *home),
        (Command::Put(..), Some(Body::Struct(..))) => expected.is_none(),
        (Command::Unset(_, field), Some(Body::Struct(class, _))) => field_expects(
            schema, *class, *field,
        ).is_none(),
        (Command::PutKey(..) | Command::DelKey(..), Some(Body::Map(..))) => false,
        (Command::Push(..) | Command::SetAt(..) | Command::DelAt(..), Some(Body::Array(..))) =>
            false,
        (Command::Add(..) | Command::Del(..), Some(Body::Set(..))) => false,
        (Command::Clear(_), Some(Body::Map(..) | Body::Array(..) | Body::Set(..))) => false,
        _ => true,
    }
}

/// Whether a field is absent, a position past the length, or a key or a value not there.
pub fn is_no_item(command: &Command, body: &Body, found: &Found<'_>) -> bool
    requires { found.now.absent ≡ is_absent command.now (row_of body.now) }
    ensures { result ≡ is_no_item command.now (Some (row_of body.now)) }
{
    match (command, body) {
        (Command::Unset(..), Body::Struct(..))
        | (Command::DelKey(..), Body::Map(..))
        | (Command::SetAt(..) | Command::DelAt(..), Body::Array(..))
        | (Command::Del(..), Body::Set(..)) => found.absent,
        _ => false,
    }
}

/// What the place of the value is declared to hold; None where the row isn't there.
pub fn expected_for(schema: &Schema, command: &Command, body: Option<&Body>) -> Option<Expected>
    ensures { result ≡ expected_for schema.now command.now (option_map row_of (option_copied body.entry)) }
{
    match (command, body?) {
        (Command::Put(_, field, _), Body::Struct(class, _)) => field_expects(
            schema, *class, *field,
        ),
        (_, Body::Struct(..)) => None,
        (_, Body::Map(home, _) | Body::Array(home, _) | Body::Set(home, _)) => item_expects(
            schema, *home,
        ),
    }
}

/// Whether the command gives an item number.
pub fn gives_number(command: &Command, body: &Body, found: &Found<'_>) -> bool
    requires { found.now.absent ≡ is_absent command.now (row_of body.now) }
    ensures { result ≡ gives_number command.now (Some (row_of body.now)) }
{
    match (command, body) {
        (Command::PutKey(..), Body::Map(..)) | (Command::Add(..), Body::Set(..)) => found.absent,
        _ => false,
    }
}

/// Whether the command adds a place.
pub fn adds_place(command: &Command, body: &Body, found: &Found<'_>) -> bool
    requires { found.now.absent ≡ is_absent command.now (row_of body.now) }
    ensures { result ≡ adds_place command.now (Some (row_of body.now)) }
{
    match (command, body) {
        (Command::Put(..), Body::Struct(..)) => found.absent,
        (Command::Push(..), _) => true,
        _ => gives_number(command, body, found),
    }
}

/// Whether the set holds the value that the command adds.
pub fn is_present(command: &Command, body: &Body, found: &Found<'_>) -> bool
    requires { found.now.absent ≡ is_absent command.now (row_of body.now) }
    ensures { result ≡ is_present command.now (Some (row_of body.now)) }
{
    match (command, body) {
        (Command::Add(..), Body::Set(..)) => !found.absent,
        _ => false,
    }
}

/// Whether a text value or a key is longer than one may be.
pub fn is_long(command: &Command) -> bool
    ensures { result ≡ (is_long_text (value_put command.now) || is_long_key command.now) }
{
    let key = match command {
        Command::PutKey(_, key, _) => key.len(),
        _ => 0,
    };
    text_size(value_put(command)) > ONE_TEXT_LIMIT || key > ONE_TEXT_LIMIT
}
