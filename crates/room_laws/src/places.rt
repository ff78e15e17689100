ghost use Rattle.room_laws.specs.Places.{RoomsKeepPlaces};

/// After every list of events that may happen, no more places of a room are in use than it has then.
pub fn rooms_keep_places()
    ensures { RoomsKeepPlaces }
{}
