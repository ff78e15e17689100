ghost use Rattle.room_promises.specs.Returns.{ClientsReturn};
ghost use Rattle.room_promises.specs.RoomPromises.{EqualRecordsEqualBytes, RoomsKeep};

/// After every list of events that a new room may take, with any number of clients: a live client's frames decode to
/// exactly what it may see, none of them refused; what a client is sent is what the schema and its record are sent; and
/// the room never passes its places.
pub fn rooms_keep()
    ensures { RoomsKeep }
{}

/// In two such runs of one schema, clients with equal records are given equal bytes.
pub fn equal_records_equal_bytes()
    ensures { EqualRecordsEqualBytes }
{}

/// After every such list, a client that comes back by the token of its kept seat finds the members of its view and its keep
/// time as they were, and nothing waits for it; the tick behind its acknowledgement gives it a whole state; and the token is
/// nobody's any more.
pub fn clients_return()
    ensures { ClientsReturn }
{}
