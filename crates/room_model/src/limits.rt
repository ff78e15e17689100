//! The limits of rooms.

/// The most seats and reservations that a definition may allow.
pub const MOST_PLACES: u64 = 64;

/// The longest time that a definition may name, in milliseconds.
pub const LONGEST_TIME: u64 = 3_600_000;

/// The moments and lapses of a room are below this, in milliseconds.
pub const MOMENT_BOUND: u64 = 1 << 54;

/// The kind of a message is shorter than this, in bytes.
pub const KIND_BOUND: u64 = 1 << 32;

/// The most keys by which the rooms of a definition may be told apart.
pub const MOST_FILTERS: usize = 4;

/// The most frames that wait for a client's full state.
pub const MOST_QUEUED: usize = 256;
