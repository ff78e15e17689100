//! Where sessions were reserved.
ghost use Rattle.std.specs.Prelude.{◌≡◌, [], false, Some, IfOk, OnOk};
ghost use Rattle.room_laws.specs.Names.{has_session};
ghost use Rattle.hub_core.specs.SessionRooms.{IsHoused, room_of_session};
ghost use Rattle.hub_core.specs.RoomEntry.{Each};

use crate::rooms::{Rooms, bytes_of};
use lists::Memory;
use room_like::RoomLike;
use schema_model::Id;
use std::alloc::Global;
use std::collections::BTreeMap;
use std::marker::Model;

// How many sessions are noted at least before those are looked for that no room has any more.
const LEAST: usize = 64;

/// Sessions, each with the number of the room in which it was reserved last. All sessions that rooms have are there, and at
/// times as many that no room has any more, since rooms don't tell which reservations lapse.
#[derive(Drop)]
pub struct SessionRooms {
    by_session: BTreeMap<[u8; 9], u64>,
    most: usize,
}

impl Model for SessionRooms {
    ghost use Rattle.std.specs.Prelude.{ℕ, List};

    ghost Value = { List (List ℕ × ℕ) };

    ghost view = { λ h. h.by_session.entries };
}

impl SessionRooms {
    /// None. They take no memory.
    pub fn new(alloc: Global) -> SessionRooms
        ensures { result ≡ [] }
    {
        SessionRooms {
            by_session: BTreeMap::new(alloc),
            most: LEAST,
        }
    }

    /// The number of the room in which a session was reserved last.
    pub fn get(&self, session: Id) -> Option<u64>
        ensures { result ≡ room_of_session session self.now }
    {
        self.by_session.get(&bytes_of(session)).copied()
    }

    /// Notes that a session, which no room has, is reserved in the room of a number.
    pub fn note<R: RoomLike>(
        &mut self,
        alloc: Global,
        session: Id,
        serial: u64,
        rooms: &Rooms<R>,
    ) -> Result<(), Memory>
        requires housed { Each (IsHoused R.room self.old) rooms.now }
        requires free { Each (λ s. has_session (R.room s.room) session ≡ false) rooms.now }
        ensures housed { OnOk result (Each (IsHoused R.room self.new) rooms.now) }
        ensures home { OnOk result (room_of_session session self.new ≡ Some serial) }
    {
        self.sweep(alloc, rooms)?;
        self.by_session.insert(bytes_of(session), serial)?;
        Ok(())
    }

    // Forgets the sessions that no room has any more, where there may be as many of them as of others.
    fn sweep<R: RoomLike>(&mut self, alloc: Global, rooms: &Rooms<R>) -> Result<(), Memory>
        requires { Each (IsHoused R.room self.old) rooms.now }
        ensures { OnOk result (Each (IsHoused R.room self.new) rooms.now) }
    {
        if self.by_session.len() < self.most {
            return Ok(());
        }
        let left = self.left(alloc, rooms)?;
        self.most = left.len().saturating_mul(2).saturating_add(LEAST);
        self.by_session = left;
        Ok(())
    }

    // The sessions that their rooms still have.
    fn left<R: RoomLike>(
        &self,
        alloc: Global,
        rooms: &Rooms<R>,
    ) -> Result<BTreeMap<[u8; 9], u64>, Memory>
        requires { Each (IsHoused R.room self.now) rooms.now }
        ensures { IfOk result (λ left. Each (IsHoused R.room left.entries) rooms.now) }
    {
        let mut left = BTreeMap::new(alloc);
        'session_rooms: for (session, serial) in self.by_session.iter() {
            if rooms.has_session(*serial, Id(*session)) {
                left.insert(*session, *serial)?;
            }
        }
        Ok(left)
    }
}
