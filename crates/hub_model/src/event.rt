ghost use Rattle.std.specs.Prelude.{◌≡◌, IfOk};

use frame_model::MsgKind;
use lists::{Memory, Seq, Text};
use room_model::{Act, Refusal};
use schema_model::{Bytes, ConnNum, Id, RefNum};
use std::alloc::Global;

/// What happens to a hub.
#[derive(Debug, Drop)]
pub enum HubEvent {
    /// The present moment, in milliseconds.
    At(u64),
    /// A request for a seat, with the ids that were drawn for a new room and for the session.
    Ask {
        conn: ConnNum,
        target: Text,
        body: Bytes,
        room: Id,
        session: Id,
    },
    /// A plain connection gave what is no request.
    Bad {
        conn: ConnNum,
    },
    /// A WebSocket opened, with the token that was drawn for it.
    Opening {
        conn: ConnNum,
        target: Text,
        fresh: Id,
    },
    /// A binary message of a WebSocket.
    Frame {
        conn: ConnNum,
        bytes: Bytes,
    },
    /// A WebSocket was lost.
    Lost {
        conn: ConnNum,
    },
    Act {
        room: Id,
        act: Act,
    },
    Tick {
        room: Id,
    },
}

pub type Events = Seq<HubEvent>;

impl HubEvent {
    /// The same event again.
    pub fn copy(&self, alloc: Global) -> Result<HubEvent, Memory>
        ensures { IfOk result (λ e. e ≡ self.now) }
    {
        Ok(match self {
            HubEvent::At(now) => HubEvent::At(*now),
            HubEvent::Ask {
                conn,
                target,
                body,
                room,
                session,
            } => HubEvent::Ask {
                conn: *conn,
                target: target.copy(alloc)?,
                body: body.copy(alloc)?,
                room: *room,
                session: *session,
            },
            HubEvent::Bad { conn } => HubEvent::Bad { conn: *conn },
            HubEvent::Opening {
                conn,
                target,
                fresh,
            } => HubEvent::Opening {
                conn: *conn,
                target: target.copy(alloc)?,
                fresh: *fresh,
            },
            HubEvent::Frame { conn, bytes } => HubEvent::Frame {
                conn: *conn,
                bytes: bytes.copy(alloc)?,
            },
            HubEvent::Lost { conn } => HubEvent::Lost { conn: *conn },
            HubEvent::Act { room, act } => HubEvent::Act {
                room: *room,
                act: act.copy(alloc)?,
            },
            HubEvent::Tick { room } => HubEvent::Tick { room: *room },
        })
    }
}

/// What a hub gives.
#[derive(Debug, Drop)]
pub enum HubOut {
    Send(ConnNum, Bytes),
    Close(ConnNum, u16),
    Reply(ConnNum, Text),
    /// A room was made, of the definition with this name.
    Created(Id, Text),
    /// The room, and the session whose reservation was taken.
    Joined(Id, Id),
    Returned(Id, Id),
    Message(Id, Id, MsgKind, Bytes),
    RawMessage(Id, Id, MsgKind, Bytes),
    Dropped(Id, Id),
    Left(Id, Id),
    Disposed(Id),
    Made(Id, RefNum),
    Refused(Refusal),
}

pub type HubOuts = Seq<HubOut>;
