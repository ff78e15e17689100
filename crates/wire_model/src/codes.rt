//! The first bytes of what state bytes spell. After `@colyseus/schema` 3.

/// A switch to another holder.
pub const SWITCH: u8 = 255;

/// The type number of an instance comes next.
pub const TYPE_MARK: u8 = 213;

/// Puts a new value under a key. On an instance the field's index is added to the code.
pub const ADD: u8 = 128;

/// Puts a value in the place of another.
pub const REPLACE: u8 = 0;

/// Takes a value out.
pub const DELETE: u8 = 64;

/// Takes a value out and puts another.
pub const DELETE_AND_ADD: u8 = 192;

/// Takes all items out.
pub const CLEAR: u8 = 10;

/// Puts an instance into an array by its number.
pub const ADD_BY_REF: u8 = 129;

/// Takes an instance out of an array by its number.
pub const DELETE_BY_REF: u8 = 33;

/// Turns an array round. It isn't taken.
pub const REVERSE: u8 = 15;

/// Moves an item. It isn't taken.
pub const MOVE: u8 = 32;

/// Takes an item out and moves another to its place. It isn't taken.
pub const DELETE_AND_MOVE: u8 = 96;

/// Moves an item and puts another to its place. It isn't taken.
pub const MOVE_AND_ADD: u8 = 160;
