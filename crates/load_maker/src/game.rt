//! The game of a load: its schema and its room.
ghost use Rattle.std.specs.Prelude.{◌≡◌, IfOk};
ghost use Rattle.load_maker.specs.Generated.{game_def, game_schema};

use lists::{Memory, Seq, Text};
use room_model::RoomDef;
use schema_model::Schema;
use schema_reader::read_schema;
use std::alloc::Global;
use text_model::SchemaFault;

// Players with their gold and their hand of cards, which each sees alone, and things that all see.
const CLASSES: &[u8] = b"class State\nfield players map Player\nfield things map Thing\n\
class Player\nfield name string\nfield gold number view\nfield hand array Card view\n\
class Card\nfield rank number\n\
class Thing\nfield x number\nfield y number\n\
root State\n";

/// The schema of the game.
pub fn game_schema(alloc: Global) -> Result<Schema, Memory>
    ensures { IfOk result (λ s. s ≡ game_schema) }
{
    match read_schema(alloc, CLASSES) {
        Ok(schema) => Ok(schema),
        Err(SchemaFault::Memory) => Err(Memory),
        Err(_) => unreachable!(),
    }
}

/// The definition of its room.
pub fn game_def(alloc: Global) -> Result<RoomDef, Memory>
    ensures { IfOk result (λ d. d ≡ game_def) }
{
    Ok(RoomDef {
        name: Text::from_text(alloc, "game")?,
        max: 8,
        seat: 15_000,
        patch: 50,
        keep: 20_000,
        filter: Seq::new(alloc),
    })
}
