//! Which events change no place of a room.
ghost use Rattle.std.specs.Prelude.{◌≡◌};
ghost use Rattle.std.specs.List.{list_any};
ghost use Rattle.room_laws.specs.Quiet.{is_ending, is_quiet, is_quiet_act};

use room_model::{Act, RoomEvent, RoomOut};

/// Whether an event is about no place: a frame, a tick, or an act that neither kicks nor locks. It changes none unless it
/// ends a connection.
pub fn is_quiet(event: &RoomEvent) -> bool
    ensures { result ≡ is_quiet event.now }
{
    match event {
        RoomEvent::Frame(_, _) | RoomEvent::Tick => true,
        RoomEvent::Act(act) => is_quiet_act(act),
        RoomEvent::Reserve(_, _)
        | RoomEvent::Enter(_, _, _)
        | RoomEvent::Lost(_, _)
        | RoomEvent::Moment(_) => false,
    }
}

// It neither kicks nor locks.
fn is_quiet_act(act: &Act) -> bool
    ensures { result ≡ is_quiet_act act.now }
{
    match act {
        Act::Kick(_, _) | Act::Lock | Act::Unlock => false,
        Act::State(_)
        | Act::ViewAdd(_, _)
        | Act::ViewDel(_, _)
        | Act::Send(_, _, _)
        | Act::Raw(_, _, _)
        | Act::ToAll(_, _)
        | Act::Keep(_, _) => true,
    }
}

/// Whether outputs end a connection or a session.
pub fn ends_any(outs: &[RoomOut]) -> bool
    ensures { result ≡ list_any is_ending outs.now }
{
    outs.iter().any(is_ending)
}

// An output ends a connection or a session.
fn is_ending(out: &RoomOut) -> bool
    ensures { result ≡ is_ending out.now }
{
    match out {
        RoomOut::Close(_, _) | RoomOut::Dropped(_) | RoomOut::Left(_) => true,
        RoomOut::Send(_, _)
        | RoomOut::Entered(_)
        | RoomOut::Back(_)
        | RoomOut::NoSeat(_)
        | RoomOut::TokenInUse(_)
        | RoomOut::Message(_, _, _)
        | RoomOut::RawMessage(_, _, _)
        | RoomOut::Made(_)
        | RoomOut::Refused(_) => false,
    }
}
