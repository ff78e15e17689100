ghost use Rattle.std.specs.Prelude.{◌≡◌, IfOk};
ghost use Rattle.room_model.specs.Acts.{is_short_kind, may_act};

use crate::limits::{KIND_BOUND, LONGEST_TIME};
use crate::refusal::Refusal;
use frame_model::MsgKind;
use lists::{Memory, Seq};
use schema_model::{Bytes, Id, Pair, RefNum};
use state_model::Command;
use std::alloc::Global;

/// What a room's owner does to it.
#[derive(Debug, Drop)]
pub enum Act {
    State(Command),
    /// Adds a row and what it leads to to a session's view.
    ViewAdd(Id, Pair),
    ViewDel(Id, Pair),
    Send(Id, MsgKind, Bytes),
    Raw(Id, MsgKind, Bytes),
    ToAll(MsgKind, Bytes),
    /// Ends a session, with the code that closes its connection.
    Kick(Id, u16),
    Lock,
    Unlock,
    /// Sets for how many ms a session's seat is kept at its next drop.
    Keep(Id, u64),
}

impl Act {
    /// Whether it is within the limits: a message's kind is a number or a name shorter than `KIND_BOUND` bytes, and a seat is
    /// kept for `LONGEST_TIME` ms at most.
    pub fn is_within_limits(&self) -> bool
        ensures { result ≡ may_act self.now }
    {
        match self {
            Act::Send(_, kind, _) | Act::Raw(_, kind, _) | Act::ToAll(kind, _) => {
                is_short_kind(kind)
            }
            Act::Keep(_, ms) => *ms <= LONGEST_TIME,
            _ => true,
        }
    }

    /// The same act again.
    pub fn copy(&self, alloc: Global) -> Result<Act, Memory>
        ensures { IfOk result (λ a. a ≡ self.now) }
    {
        Ok(match self {
            Act::State(command) => Act::State(command.copy(alloc)?),
            Act::Send(session, kind, payload) => {
                Act::Send(*session, kind.copy(alloc)?, payload.copy(alloc)?)
            }
            Act::Raw(session, kind, payload) => {
                Act::Raw(*session, kind.copy(alloc)?, payload.copy(alloc)?)
            }
            Act::ToAll(kind, payload) => Act::ToAll(kind.copy(alloc)?, payload.copy(alloc)?),
            Act::ViewAdd(session, pair) => Act::ViewAdd(*session, *pair),
            Act::ViewDel(session, pair) => Act::ViewDel(*session, *pair),
            Act::Kick(session, code) => Act::Kick(*session, *code),
            Act::Lock => Act::Lock,
            Act::Unlock => Act::Unlock,
            Act::Keep(session, ms) => Act::Keep(*session, *ms),
        })
    }
}

/// Whether a message may be about this: a number, or a name shorter than `KIND_BOUND` bytes.
pub fn is_short_kind(kind: &MsgKind) -> bool
    ensures { result ≡ is_short_kind kind.now }
{
    match kind {
        MsgKind::Name(name) => (name.as_slice().len() as u64) < KIND_BOUND,
        MsgKind::Num(_) => true,
    }
}

/// What happens to a room.
#[derive(Debug, Drop)]
pub enum RoomEvent {
    /// The session, and the moment at which its reservation lapses.
    Reserve(Id, u64),
    /// The session, the reconnection token where the opening has one, and the fresh token.
    Enter(Id, Option<Id>, Id),
    Frame(Id, Bytes),
    /// The session whose connection was lost, and the present moment.
    Lost(Id, u64),
    /// The present moment.
    Moment(u64),
    Act(Act),
    Tick,
}

/// What a room gives.
#[derive(Debug, Drop)]
pub enum RoomOut {
    Send(Id, Bytes),
    Close(Id, u16),
    /// A reservation was taken.
    Entered(Id),
    /// A kept seat was taken again.
    Back(Id),
    NoSeat(Id),
    TokenInUse(Id),
    Message(Id, MsgKind, Bytes),
    RawMessage(Id, MsgKind, Bytes),
    Dropped(Id),
    Left(Id),
    Made(RefNum),
    Refused(Refusal),
}

pub type RoomOuts = Seq<RoomOut>;

/// How far a session is.
#[derive(Clone, Copy, Debug, PartialEq, Eq)]
pub enum Stage {
    /// It has a reservation.
    Reserved,
    /// It was opened and not yet acknowledged.
    Joining,
    /// It was acknowledged, and its full state is due.
    Due,
    /// It was sent its full state.
    Live,
    /// Its connection was lost, and its seat is kept.
    Kept,
}
