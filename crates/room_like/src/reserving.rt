//! Whether a room has a place for a session.
ghost use Rattle.std.specs.Prelude.{◌≡◌};
ghost use Rattle.room_laws.specs.Places.{has_place_for};

use crate::room::RoomLike;
use schema_model::Id;

/// Whether a reservation may be made for a session: the room is neither locked nor full, and doesn't have the session.
pub fn may_reserve<R: RoomLike>(room: &R, session: Id) -> bool
    ensures { result ≡ has_place_for (R.room room.now) session }
{
    !room.locked() && room.in_use() < room.max() && !room.has_session(session)
}
