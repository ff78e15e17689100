//! What bytes are.
ghost use Rattle.std.specs.Prelude.{◌≡◌, IfOk, length};
ghost use Rattle.frame_model.specs.PackData.{data_of};
ghost use Rattle.frame_model.specs.Packs.{read_pack};
ghost use Rattle.msgpack_lite.specs.Gives.{GivesPack};
ghost use Rattle.msgpack_lite.specs.Ends.{is_read};
ghost use Rattle.msgpack_lite.specs.Weight.{IsWithin};

use crate::build::value_at;
use crate::ends::end_at;
use frame_model::{MOST_LEVELS, Pack, PackFault};
use std::alloc::Global;

/// Whether bytes are one value: Ok, or the first fault. It takes no memory.
pub fn check(bytes: &[u8]) -> Result<(), PackFault>
    ensures { result ≡ is_read (read_pack bytes.now) }
{
    let end = end_at(bytes, 0, MOST_LEVELS)?;
    if end == bytes.len() {
        Ok(())
    } else {
        Err(PackFault::Trailing(end))
    }
}

/// The value that bytes are, or the first fault; out of memory is told only of bytes that are one. It is no deeper than
/// `MOST_LEVELS`, and has no more values, keys and bytes of texts in it than there are bytes.
pub fn read(alloc: Global, bytes: &[u8]) -> Result<Pack, PackFault>
    ensures value { GivesPack result (read_pack bytes.now) }
    ensures within { IfOk result (λ pack. IsWithin (length bytes.now) (data_of pack)) }
{
    check(bytes)?;
    let (pack, _) = value_at(alloc, bytes, 0, MOST_LEVELS)?;
    Ok(pack)
}
