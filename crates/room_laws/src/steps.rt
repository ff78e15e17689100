ghost use Rattle.room_laws.specs.StepLaws.{RoomsObey};

/// After every list of events that may happen, each further step of a room tells exactly which sessions are entered and
/// which lose their connection, and gives frames and closings to connected sessions alone.
pub fn rooms_obey()
    ensures { RoomsObey }
{}
