//! Messages of the room's owner: to one client, or to all. One goes at once to a live client; it waits for the full state
//! of one that isn't live yet.
ghost use Rattle.std.specs.Prelude.{◌≡◌, None, IfOk, OnErr, OnOk};
ghost use Rattle.room_model.specs.Room.{on_session, told_all as all_told};
ghost use Rattle.room_model.specs.Sessions.{told_to};
ghost use Rattle.room_laws.specs.Ordered.{Ordered};
ghost use Rattle.room_core.specs.Messages.{AreSameUnqueued, AreTold, Hears, IsTold, IsToldAmong, unqueued};
ghost use Rattle.room_core.specs.Stands.{RoomStands};
ghost use Rattle.room_core.specs.Values.{room_of};

use crate::client::Client;
use crate::edits::refused;
use crate::parts::Parts;
use lists::Seq;
use room_model::{MOST_QUEUED, Refusal, RoomOut, RoomOuts, Stage};
use schema_model::{Bytes, Id, Memory};
use std::alloc::Global;

impl Parts {
    /// A frame to a session.
    pub fn send(&mut self, session: Id, frame: Bytes) -> Result<RoomOuts, Memory>
        requires stands { RoomStands self.old }
        requires order { Ordered (room_of self.old) }
        ensures outs { IfOk result (λ outs. outs ≡ (on_session (room_of self.old) session (told_to frame)).1) }
        ensures room { OnOk result (room_of self.new ≡ (on_session (room_of self.old) session (told_to frame)).0) }
        ensures stands { OnOk result (RoomStands self.new) }
        ensures order { OnErr result (Ordered (room_of self.new)) }
    {
        let alloc = self.alloc;
        let Some(at) = self.place_of(session) else {
            return refused(alloc, Some(Refusal::NoSession));
        };
        let client = &mut self.clients[at];
        if let Some(refusal) = deaf(client) {
            return refused(alloc, Some(refusal));
        }
        let mut outs = Seq::new(alloc);
        tell(client, frame, &mut outs)?;
        Ok(outs)
    }

    /// A frame to all that have a connection, but for those for which too many wait.
    pub fn send_all(&mut self, frame: &Bytes) -> Result<RoomOuts, Memory>
        requires stands { RoomStands self.old }
        requires order { Ordered (room_of self.old) }
        ensures outs { IfOk result (λ outs. outs ≡ (all_told (room_of self.old) frame.now).1) }
        ensures room { OnOk result (room_of self.new ≡ (all_told (room_of self.old) frame.now).0) }
        ensures stands { OnOk result (RoomStands self.new) }
        ensures order { OnErr result (Ordered (room_of self.new)) }
    {
        tell_all(self.alloc, &mut self.clients, frame)
    }
}

// A frame to each client, one after another.
fn tell_all(alloc: Global, clients: &mut Vec<Client>, frame: &Bytes) -> Result<RoomOuts, Memory>
    ensures told { IfOk result (λ outs. AreTold frame.now clients.old.items clients.new.items outs) }
    ensures same { AreSameUnqueued clients.new.items clients.old.items }
{
    let mut outs = Seq::new(alloc);
    for client in clients.iter_mut() {
        tell_if_heard(alloc, client, frame, &mut outs)?;
    }
    Ok(outs)
}

// A copy of a frame to a client that hears it.
fn tell_if_heard(
    alloc: Global,
    client: &mut Client,
    frame: &Bytes,
    outs: &mut RoomOuts,
) -> Result<(), Memory>
    ensures told { OnOk result (IsToldAmong frame.now client.old client.new outs.old outs.new) }
    ensures same { unqueued client.new ≡ unqueued client.old }
{
    if deaf(client).is_some() {
        return Ok(());
    }
    let copy = Bytes::from_slice(alloc, frame.as_slice())?;
    tell(client, copy, outs)
}

// Why a client isn't told a message: it has no connection, or too many wait.
fn deaf(client: &Client) -> Option<Refusal>
    ensures { Hears client.now result }
{
    match client.stage {
        Stage::Joining | Stage::Due if client.queue.len() < MOST_QUEUED => None,
        Stage::Joining | Stage::Due => Some(Refusal::QueueFull),
        Stage::Live => None,
        Stage::Reserved | Stage::Kept => Some(Refusal::NotHere),
    }
}

// A frame to a client that hears it: it is sent, or it waits.
fn tell(client: &mut Client, frame: Bytes, outs: &mut RoomOuts) -> Result<(), Memory>
    requires { Hears client.old None }
    ensures told { OnOk result (IsTold frame client.old client.new outs.old outs.new) }
    ensures same { unqueued client.new ≡ unqueued client.old }
{
    match client.stage {
        Stage::Live => outs.push(RoomOut::Send(client.id, frame)),
        _ => client.queue.push(frame),
    }
}
