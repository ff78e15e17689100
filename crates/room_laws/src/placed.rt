ghost use Rattle.room_laws.specs.Placed.{RoomsStayPlaced};

/// After every list of events that may happen, a room's places are those of its sessions, in one order: exactly the
/// connected ones have a seat, exactly the reserved ones a reservation, and exactly the kept ones a kept seat.
pub fn rooms_stay_placed()
    ensures { RoomsStayPlaced }
{}
