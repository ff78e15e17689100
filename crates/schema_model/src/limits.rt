//! The limits of schemas and of the numbers that a state gives.

/// How many classes a schema has at most.
pub const MOST_CLASSES: usize = 256;

/// How many fields a class has at most, with those that it inherits.
pub const MOST_FIELDS: usize = 63;

/// The greatest reference number, and the greatest number of an item.
pub const LAST_NUMBER: u32 = 2_147_483_647;
