//! What clients say, and how they go from a room or lose their connection: they leave, drop, are kicked, or their seats
//! lapse.
ghost use Rattle.std.specs.Prelude.{◌≡◌, [], ◌∷◌, ◌++◌, IfOk, IsTrue, OnErr, OnOk};
ghost use Rattle.room_model.specs.Ledger.{expire};
ghost use Rattle.room_model.specs.Room.{after_frame, after_kick, after_loss, after_moment, ended};
ghost use Rattle.room_model.specs.declared.event.RoomOut.TheVariants.{Close, Left};
ghost use Rattle.room_model.specs.Sessions.{session_of};
ghost use Rattle.room_laws.specs.Ordered.{Ordered};
ghost use Rattle.room_laws.specs.Places.{is_connected_in, is_moment};
ghost use Rattle.room_core.specs.Clients.{IsClientOf};
ghost use Rattle.room_core.specs.Leaving.{Lapses, lapse_told};
ghost use Rattle.room_core.specs.Stands.{RoomStands};
ghost use Rattle.room_core.specs.Steps.{acknowledged_stage, UnreadTells};
ghost use Rattle.room_core.specs.Values.{room_of};

use crate::clients::has_connection;
use crate::edits::refused;
use crate::entering::one_out;
use crate::frames::unread_frame;
use crate::parts::Parts;
use client_frames::{ClientFrame, FrameFault, read_client};
use frame_model::codes::CONSENTED;
use lists::Seq;
use room_model::{Refusal, RoomOut, RoomOuts, Stage};
use schema_model::{Bytes, Id, Memory};
use std::alloc::Global;
use view_counts::ViewCounts;

impl Parts {
    /// A frame of a connected session: its acknowledgement, that it leaves, or a message, which is handed on without a look
    /// at the session. What can't be read is answered by an error.
    pub fn frame(&mut self, session: Id, bytes: &Bytes) -> Result<RoomOuts, Memory>
        requires stands { RoomStands self.old }
        requires order { Ordered (room_of self.old) }
        requires connected { IsTrue (is_connected_in (room_of self.old) session) }
        ensures outs { IfOk result (λ outs. outs ≡ (after_frame (room_of self.old) session bytes.now).1) }
        ensures room { OnOk result (room_of self.new ≡ (after_frame (room_of self.old) session bytes.now).0) }
        ensures stands { OnOk result (RoomStands self.new) }
        ensures order { OnErr result (Ordered (room_of self.new)) }
    {
        match read_client(self.alloc, bytes.as_slice()) {
            Ok(ClientFrame::Ack) => {
                let Some(at) = self.place_of(session) else {
                    return Ok(Seq::new(self.alloc));
                };
                let client = &mut self.clients[at];
                client.stage = acknowledged(client.stage);
                Ok(Seq::new(self.alloc))
            }
            Ok(ClientFrame::Leave) => {
                let Some(at) = self.place_of(session) else {
                    return Ok(Seq::new(self.alloc));
                };
                let outs = closed(self.alloc, session, CONSENTED)?;
                self.end(session, at);
                Ok(outs)
            }
            Ok(ClientFrame::Msg(kind, payload)) => {
                one_out(self.alloc, RoomOut::Message(session, kind, payload))
            }
            Ok(ClientFrame::Raw(kind, payload)) => {
                one_out(self.alloc, RoomOut::RawMessage(session, kind, payload))
            }
            Err(fault) => unread(self.alloc, session, fault),
        }
    }

    /// The connection of a session is lost at a moment: its seat is kept for its time, or the session ends. What was seen
    /// is forgotten.
    pub fn lose(&mut self, session: Id, now: u64) -> Result<RoomOuts, Memory>
        requires stands { RoomStands self.old }
        requires order { Ordered (room_of self.old) }
        requires moment { IsTrue (is_moment now) }
        requires connected { IsTrue (is_connected_in (room_of self.old) session) }
        ensures outs { IfOk result (λ outs. outs ≡ (after_loss (room_of self.old) session now).1) }
        ensures room { OnOk result (room_of self.new ≡ (after_loss (room_of self.old) session now).0) }
        ensures stands { OnOk result (RoomStands self.new) }
        ensures order { OnErr result (Ordered (room_of self.new)) }
    {
        let Some(at) = self.place_of(session) else {
            return Ok(Seq::new(self.alloc));
        };
        let keep = self.clients[at].keep;
        if keep == 0 {
            let outs = one_out(self.alloc, RoomOut::Left(session))?;
            self.end(session, at);
            return Ok(outs);
        }
        let view = ViewCounts::new(self.alloc, self.live.schema())?;
        let outs = one_out(self.alloc, RoomOut::Dropped(session))?;
        self.places.keep(session, now + u64::from(keep)).unwrap();
        let client = &mut self.clients[at];
        client.stage = Stage::Kept;
        client.view = view;
        client.queue = Seq::new(self.alloc);
        Ok(outs)
    }

    /// A kick: the session ends, and its connection is closed with a code, where it has one.
    pub fn kick(&mut self, session: Id, code: u16) -> Result<RoomOuts, Memory>
        requires stands { RoomStands self.old }
        requires order { Ordered (room_of self.old) }
        ensures outs { IfOk result (λ outs. outs ≡ (after_kick (room_of self.old) code (session_of (room_of self.old).sessions session)).1) }
        ensures room { OnOk result (room_of self.new ≡ (after_kick (room_of self.old) code (session_of (room_of self.old).sessions session)).0) }
        ensures stands { OnOk result (RoomStands self.new) }
        ensures order { OnErr result (Ordered (room_of self.new)) }
    {
        let Some(at) = self.place_of(session) else {
            return refused(self.alloc, Some(Refusal::NoSession));
        };
        let outs = if has_connection(self.clients[at].stage) {
            closed(self.alloc, session, code)?
        } else {
            one_out(self.alloc, RoomOut::Left(session))?
        };
        self.end(session, at);
        Ok(outs)
    }

    /// A moment: the reservations and the kept seats that lapse by it end, the least lapse first.
    pub fn lapse(&mut self, now: u64) -> Result<RoomOuts, Memory>
        requires stands { RoomStands self.old }
        requires order { Ordered (room_of self.old) }
        ensures outs { IfOk result (λ outs. outs ≡ (after_moment (room_of self.old) now).1) }
        ensures room { OnOk result (room_of self.new ≡ (after_moment (room_of self.old) now).0) }
        ensures stands { OnOk result (RoomStands self.new) }
        ensures order { OnErr result (Ordered (room_of self.new)) }
    {
        let mut outs = Seq::new(self.alloc);
        for _ in 0..self.places.in_use() {
            if !self.lapse_first(now, &mut outs)? {
                break;
            }
        }
        Ok(outs)
    }

    // What lapses first by a moment ends, where something does; that a kept seat does is told.
    fn lapse_first(&mut self, now: u64, outs: &mut RoomOuts) -> Result<bool, Memory>
        requires stands { RoomStands self.old }
        requires order { Ordered (room_of self.old) }
        ensures lapses { IfOk result (Lapses (room_of self.old, outs.old) (expire self.old.places now) (room_of self.new, outs.new)) }
        ensures stands { OnOk result (RoomStands self.new) }
        ensures order { Ordered (room_of self.new) }
    {
        let Some(at) = self.places.due(now) else {
            return Ok(false);
        };
        let at = at as usize;
        let client = &self.clients[at];
        tell_lapse(outs, client.id, client.stage)?;
        self.places.expire(now);
        self.clients.remove(at);
        Ok(true)
    }

    // A session that ends: its place is free, and its client, which stands at a place, goes.
    fn end(&mut self, session: Id, at: usize)
        requires stands { RoomStands self.old }
        requires order { Ordered (room_of self.old) }
        requires client { IsClientOf session self.old.clients.items at }
        ensures room { room_of self.new ≡ ended (room_of self.old) session }
        ensures stands { RoomStands self.new }
    {
        self.places.leave(session).unwrap();
        self.clients.remove(at);
    }
}

// What answers a frame that can't be read: an error. Out of memory is none.
fn unread(alloc: Global, session: Id, fault: FrameFault) -> Result<RoomOuts, Memory>
    ensures { UnreadTells session fault result }
{
    match fault {
        FrameFault::Memory => Err(Memory),
        _ => one_out(alloc, RoomOut::Send(session, unread_frame(alloc)?)),
    }
}

// An acknowledged client's full state is due; at other stages it changes nothing.
fn acknowledged(stage: Stage) -> Stage
    ensures { result ≡ acknowledged_stage stage }
{
    match stage {
        Stage::Joining => Stage::Due,
        other => other,
    }
}

// That a session lapses is told where its seat was kept.
fn tell_lapse(outs: &mut RoomOuts, session: Id, stage: Stage) -> Result<(), Memory>
    ensures told { OnOk result (outs.new ≡ outs.old ++ lapse_told session stage) }
    ensures err { OnErr result (outs.new ≡ outs.old) }
{
    if stage == Stage::Kept {
        outs.push(RoomOut::Left(session))?;
    }
    Ok(())
}

// A client is told that it left, and its connection is closed.
fn closed(alloc: Global, session: Id, code: u16) -> Result<RoomOuts, Memory>
    ensures { IfOk result (λ outs. outs ≡ Close session code ∷ Left session ∷ []) }
{
    let mut outs = one_out(alloc, RoomOut::Close(session, code))?;
    outs.push(RoomOut::Left(session))?;
    Ok(outs)
}
