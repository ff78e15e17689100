ghost use Rattle.life_model.specs.HubPromises.{HubsFollow, HubsGiveEqualBytes, HubsKeep};

/// After every list of events that may come to a hub, of any number of rooms and clients: a live client's frames decode to
/// exactly what it may see, none of them refused; what a client is sent is what the schema and its record are sent; and no
/// room passes its places.
pub fn hubs_keep()
    ensures { HubsKeep }
{}

/// After every such list, whose messages are about names in UTF-8 or numbers of 32 bits: a client core that takes all frames
/// of a life refuses none, and while the life is live it has exactly what it may see.
pub fn hubs_follow()
    ensures { HubsFollow }
{}

/// In two such runs of one schema, clients with equal records are given equal bytes.
pub fn hubs_give_equal_bytes()
    ensures { HubsGiveEqualBytes }
{}
