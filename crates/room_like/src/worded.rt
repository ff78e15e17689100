//! What the types of an act's parts say of its texts and of its message's kind. The functions do nothing else than to say so.
ghost use Rattle.std.specs.Prelude.{IsTrue};
ghost use Rattle.room_model.specs.Acts.{has_kept_kind, is_worded_act};
ghost use Rattle.room_like.specs.Worded.{is_worded_event};

use frame_model::know_kind;
use room_model::{Act, RoomEvent};
use state_model::know_texts;

/// The texts that an act's command puts are UTF-8, and its message is about a name in UTF-8 or a number of 32 bits.
pub fn know_act(act: &Act)
    ensures worded { IsTrue (is_worded_act act.now) }
    ensures kind { IsTrue (has_kept_kind act.now) }
{
    match act {
        Act::State(command) => know_texts(command),
        Act::Send(_, kind, _) | Act::Raw(_, kind, _) | Act::ToAll(kind, _) => know_kind(kind),
        _ => {}
    }
}

/// The texts that an event's act puts are UTF-8.
pub fn know_event(event: &RoomEvent)
    ensures { IsTrue (is_worded_event event.now) }
{
    if let RoomEvent::Act(act) = event {
        know_act(act);
    }
}
