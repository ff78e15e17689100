use schema_model::Id;
use thiserror::Error;

/// What a session has in a room.
#[derive(Clone, Copy, Debug, PartialEq, Eq)]
pub enum Seat {
    /// A reservation, with the moment at which it lapses.
    Reserved(u64),
    /// A seat, with its token.
    Taken(Id),
    /// A kept seat, with its token and the moment at which it lapses.
    Kept(Id, u64),
}

/// A session that has a place, and what it has.
#[derive(Clone, Copy, Debug, PartialEq, Eq)]
pub struct SeatEntry {
    pub session: Id,
    pub seat: Seat,
}

/// Why a call of a seat ledger is refused, in the order in which the causes are tested.
#[derive(Clone, Copy, Debug, PartialEq, Eq, Error)]
pub enum SeatFault {
    #[error("the room is locked")]
    Locked,
    #[error("the room is full")]
    Full,
    /// The session has no entry of the kind that the call takes.
    #[error("the session has no seat")]
    NoSeat,
    #[error("the token is another's")]
    WrongToken,
    #[error("the id is in use")]
    IdInUse,
}
