//! What the types of a message kind's parts say of it.
ghost use Rattle.std.specs.Prelude.{◌≡◌, true};
ghost use Rattle.frame_model.specs.Kinds.{is_kept_kind};

use crate::MsgKind;
use schema_model::{know_number, know_text};

/// A message kind's name is UTF-8, and its number one of 32 bits. It does nothing else than to say so.
pub fn know_kind(kind: &MsgKind)
    ensures { is_kept_kind kind.now ≡ true }
{
    match kind {
        MsgKind::Name(name) => know_text(name),
        MsgKind::Num(number) => know_number(*number),
    }
}
