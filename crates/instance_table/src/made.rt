//! The row that a command makes.
ghost use Rattle.std.specs.Prelude.{◌≡◌, IfOk, Some};
ghost use Rattle.std.specs.Option.{option_map};
ghost use Rattle.schema_model.specs.Classes.{home_of};
ghost use Rattle.state_model.specs.Commands.{made_row};
ghost use Rattle.state_model.specs.Places.{empty_collection};
ghost use Rattle.instance_table.specs.Bodies.{body_from};

use crate::body::Body;
use collection_ops::{ArrayBody, MapBody, SetBody};
use lists::Rising;
use schema_model::{Home, Memory, Schema, Shape};
use state_model::Command;
use std::alloc::Global;

// An empty collection of a home; None where the home is no declared collection field.
fn empty_collection(alloc: Global, schema: &Schema, home: Home) -> Result<Option<Body>, Memory>
    ensures { IfOk result (λ b. b ≡ option_map (λ r. body_from r (Some 0)) (empty_collection schema.now home)) }
{
    let Some(field) = schema.home_field(home) else {
        return Ok(None);
    };
    Ok(match field.shape {
        Shape::One(_) => None,
        Shape::Map(_) => Some(Body::Map(home, MapBody::new(alloc)?)),
        Shape::Array(_) => Some(Body::Array(home, ArrayBody::new(alloc)?)),
        Shape::Set(_) => Some(Body::Set(home, SetBody::new(alloc)?)),
    })
}

/// The row that a command makes; None where the class or the collection field isn't declared, and where the command
/// makes none.
pub fn made(alloc: Global, schema: &Schema, command: &Command) -> Result<Option<Body>, Memory>
    ensures { IfOk result (λ b. b ≡ option_map (λ r. body_from r (Some 0)) (made_row schema.now command.now)) }
{
    match command {
        Command::Make(class) => if (class.0 as usize) < schema.classes().len() {
            Ok(Some(Body::Struct(*class, Rising::new(alloc))))
        } else {
            Ok(None)
        },
        Command::MakeFor(home) => match schema.home(home.class, home.field) {
            Some(home) => empty_collection(alloc, schema, home),
            None => Ok(None),
        },
        _ => Ok(None),
    }
}
