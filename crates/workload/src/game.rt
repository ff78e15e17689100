//! The game that is measured: a map of players.
use crate::fault::WorkFault;
use schema_model::{RefNum, Schema};
use schema_reader::read_schema;
use std::alloc::Global;

const CLASSES: &str =
    "class State\nfield players map Player\nclass Player\nfield name string\nfield x number\nfield y number\nfield health number view\nroot State\n";

/// The field of the state that has the players.
pub const PLAYERS: u8 = 0;

/// The first of the three numbers of a player. The last is a secret one.
pub const X: u8 = 1;

/// The map of the players.
pub const COLLECTION: RefNum = RefNum(1);

/// The row of the player of an index.
pub fn player(index: u32) -> RefNum {
    RefNum(index.wrapping_add(2))
}

/// Its classes.
pub fn schema(alloc: Global) -> Result<Schema, WorkFault> {
    Ok(read_schema(alloc, CLASSES.as_bytes())?)
}
