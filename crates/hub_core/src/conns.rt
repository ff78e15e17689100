//! The connections of a hub.
ghost use Rattle.std.specs.Prelude.{◌≡◌, not, [], filter, None, option_map, OnOk};
ghost use Rattle.lists.specs.Rising.{find as find_by, put};
ghost use Rattle.hub_model.specs.HubValues.{conn_for, conn_number, is_conn_for};
ghost use Rattle.hub_core.specs.Conns.{IsOwn};

use hub_model::HubConn;
use lists::Memory;
use schema_model::{ConnNum, Id};
use std::alloc::Global;
use std::collections::BTreeMap;
use std::marker::Model;

/// A connection, and the slot of its room, which is looked at first.
#[derive(Drop)]
pub struct Linked {
    pub conn: ConnNum,
    pub room: Id,
    pub session: Id,
    pub slot: u32,
}

impl Model for Linked {
    ghost use Rattle.hub_model.specs.declared.conn.HubConn.{HubConn};

    ghost Value = { HubConn };

    ghost view = { λ l. record { conn = l.conn; room = l.room; session = l.session } };
}

impl Linked {
    /// The same connection in the same slot.
    pub fn copy(&self) -> Linked
        ensures { result ≡ self.now }
    {
        Linked {
            conn: self.conn,
            room: self.room,
            session: self.session,
            slot: self.slot,
        }
    }
}

/// Connections with their rooms and sessions, rising by their numbers; no two are of one session. One is found by its number
/// and by its session in logarithmic time.
#[derive(Drop)]
pub struct Conns {
    by_number: BTreeMap<u64, Linked>,
    by_session: BTreeMap<([u8; 9], [u8; 9]), u64>,
}

impl Model for Conns {
    ghost use Rattle.std.specs.Prelude.{List};
    ghost use Rattle.trees.specs.Trees.{entry_values};
    ghost use Rattle.hub_model.specs.declared.conn.HubConn.{HubConn};
    ghost use Rattle.hub_core.specs.Conns.{AreConns};

    ghost Value = { List HubConn };

    ghost view = { λ c. entry_values c.by_number.entries };

    ghost invariant = { λ c. AreConns c.by_number.entries c.by_session.entries };
}

impl Conns {
    /// No connections. They take no memory.
    pub fn new(alloc: Global) -> Conns
        ensures { result ≡ [] }
    {
        Conns {
            by_number: BTreeMap::new(alloc),
            by_session: BTreeMap::new(alloc),
        }
    }

    /// The connection of a number.
    pub fn get(&self, conn: ConnNum) -> Option<Linked>
        ensures value { result ≡ find_by conn_number conn self.now }
        ensures own { IsOwn self.now result }
    {
        match self.by_number.get(&conn.0) {
            Some(linked) => Some(linked.copy()),
            None => None,
        }
    }

    /// The number of the connection of a session of a room.
    pub fn number_of(&self, room: Id, session: Id) -> Option<ConnNum>
        ensures { result ≡ option_map conn_number (conn_for self.now room session) }
    {
        match self.by_session.get(&key_of(room, session)) {
            Some(number) => Some(ConnNum(*number)),
            None => None,
        }
    }

    /// Puts a new connection in its place, with the slot of its room.
    pub fn open(&mut self, conn: HubConn, slot: usize) -> Result<(), Memory>
        requires number { find_by conn_number conn.conn self.old ≡ None }
        requires session { conn_for self.old conn.room conn.session ≡ None }
        ensures { OnOk result (self.new ≡ put conn_number conn self.old) }
    {
        let key = key_of(conn.room, conn.session);
        let number = number_in(&conn);
        self.by_session.insert(key, number)?;
        let linked = Linked {
            conn: conn.conn,
            room: conn.room,
            session: conn.session,
            slot: u32::try_from(slot).unwrap_or(u32::MAX),
        };
        match self.by_number.insert(number, linked) {
            Ok(_) => Ok(()),
            Err(_) => {
                self.by_session.remove(&key);
                Err(Memory)
            }
        }
    }

    /// Takes the connection of a session out, where it has one.
    pub fn end(&mut self, room: Id, session: Id)
        ensures { self.new ≡ filter (λ c. not (is_conn_for room session c)) self.old }
    {
        if let Some(number) = self.by_session.remove(&key_of(room, session)) {
            self.by_number.remove(&number);
        }
    }
}

// A room and a session as a key.
fn key_of(room: Id, session: Id) -> ([u8; 9], [u8; 9])
    ensures { result ≡ (room, session) }
{
    let Id(room) = room;
    let Id(session) = session;
    (room, session)
}

fn number_in(conn: &HubConn) -> u64
    ensures { result ≡ conn_number conn.now }
{
    conn.conn.0
}
