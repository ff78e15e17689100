//! Clients, found by their sessions.
ghost use Rattle.std.specs.Prelude.{◌≡◌, is_some, map};
ghost use Rattle.room_model.specs.Sessions.{is_connected, session_of};
ghost use Rattle.room_laws.specs.Placed.{Placed, stage_of};
ghost use Rattle.room_core.specs.Clients.{IsClientAt};
ghost use Rattle.room_core.specs.Values.{is_live, live_count, room_of, session_of_client};

use crate::client::Client;
use crate::parts::Parts;
use room_model::Stage;
use schema_model::Id;

impl Parts {
    /// Where the client of a session stands. Clients stand in the order of the places, which are found without a scan.
    pub fn place_of(&self, session: Id) -> Option<usize>
        requires placed { Placed (room_of self.now) }
        ensures { IsClientAt session self.now.clients.items result }
    {
        let at = self.places.place_of(session)?;
        Some(at as usize)
    }

    /// Whether there is a client of a session.
    pub fn has_session(&self, session: Id) -> bool
        requires placed { Placed (room_of self.now) }
        ensures { result ≡ is_some (session_of (map session_of_client self.now.clients.items) session) }
    {
        self.place_of(session).is_some()
    }

    /// How far a session is.
    pub fn stage_of(&self, session: Id) -> Option<Stage>
        requires placed { Placed (room_of self.now) }
        ensures { result ≡ stage_of (map session_of_client self.now.clients.items) session }
    {
        match self.place_of(session) {
            Some(at) => Some(self.clients[at].stage),
            None => None,
        }
    }
}

/// A session at this stage has a connection.
pub fn has_connection(stage: Stage) -> bool
    ensures { result ≡ is_connected stage }
{
    matches!(stage, Stage::Joining | Stage::Due | Stage::Live)
}

/// How many of these clients are live.
pub fn live_among(clients: &[Client]) -> usize
    ensures { result ≡ live_count (map session_of_client clients.now) }
{
    let mut count = 0;
    for client in clients {
        if is_live(client.stage) {
            count += 1;
        }
    }
    count
}

// A session at this stage has had its full state and has a connection.
fn is_live(stage: Stage) -> bool
    ensures { result ≡ is_live stage }
{
    matches!(stage, Stage::Live)
}
