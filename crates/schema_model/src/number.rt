//! The numbers and names by which rows, classes, connections, views and sessions are known.
use std::marker::Model;

/// The reference number of a row. The root is 0; numbers are never used again in a room.
#[derive(Clone, Copy, Debug, PartialEq, Eq, PartialOrd, Ord)]
pub struct RefNum(pub u32);

impl Model for RefNum {
    ghost use Rattle.std.specs.Prelude.{ℕ};

    ghost Value = { ℕ };

    ghost view = { λ r. r.0 };

    ghost inverse = { λ n. record { 0 = n } };
}

/// The number of a class: its place in the schema.
#[derive(Clone, Copy, Debug, PartialEq, Eq, PartialOrd, Ord)]
pub struct TypeNum(pub u32);

impl Model for TypeNum {
    ghost use Rattle.std.specs.Prelude.{ℕ};

    ghost Value = { ℕ };

    ghost view = { λ r. r.0 };

    ghost inverse = { λ n. record { 0 = n } };
}

/// The number of a connection.
#[derive(Clone, Copy, Debug, PartialEq, Eq, PartialOrd, Ord)]
pub struct ConnNum(pub u64);

impl Model for ConnNum {
    ghost use Rattle.std.specs.Prelude.{ℕ};

    ghost Value = { ℕ };

    ghost view = { λ r. r.0 };

    ghost inverse = { λ n. record { 0 = n } };
}

/// A view tag: -1 is the default one, others are 0 to 255.
#[derive(Clone, Copy, Debug, PartialEq, Eq, PartialOrd, Ord)]
pub struct Tag(pub i16);

impl Model for Tag {
    ghost use Rattle.std.specs.Prelude.{ℤ};

    ghost Value = { ℤ };

    ghost view = { λ r. r.0 };

    ghost inverse = { λ n. record { 0 = n } };
}

/// An id of nine characters of `A-Z a-z 0-9 - _`: of a room, a session, a process or a token.
#[derive(Clone, Copy, Debug, PartialEq, Eq, PartialOrd, Ord)]
pub struct Id(pub [u8; 9]);

impl Model for Id {
    ghost use Rattle.std.specs.Prelude.{ℕ, List};

    ghost Value = { List ℕ };

    ghost view = { λ r. r.0 };

    ghost inverse = { λ n. record { 0 = n } };
}
