//! What a room shows of its places.
ghost use Rattle.hub_core.specs.Statuses.{IsStatus};

use room_like::RoomLike;
use room_model::RoomOuts;

/// What a room shows of its places: whether it is open to requests, and the least moment at which something of it lapses, in
/// milliseconds.
#[derive(Clone, Copy)]
pub struct RoomStatus {
    pub is_open: bool,
    pub lapse: Option<u64>,
}

/// What a room showed before its step, and what it shows now.
#[derive(Clone, Copy)]
pub struct Change {
    pub was: RoomStatus,
    pub now: RoomStatus,
}

/// What a room gives in its step, and what it shows then, where that may be something else than before.
#[derive(Drop)]
pub struct Turn {
    pub outs: RoomOuts,
    pub change: Option<Change>,
}

impl RoomStatus {
    /// What a room shows.
    pub fn of<R: RoomLike>(room: &R) -> RoomStatus
        ensures { IsStatus (R.room room.now).seats result }
    {
        RoomStatus {
            is_open: !room.locked() && room.in_use() < room.max(),
            lapse: room.next_lapse(),
        }
    }
}
