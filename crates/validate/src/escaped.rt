//! Whether bytes with percent escapes are text.
ghost use Rattle.std.specs.Prelude.{◌≡◌, ◌+◌, ◌≤◌, ◌∷◌, length, false};
ghost use Rattle.std.specs.Bool.{MatchBool};
ghost use Rattle.std.specs.Str.{continuation_len, is_utf8};
ghost use Rattle.percent_encoding.specs.Iter.{decoded_bytes};
ghost use Rattle.percent_encoding.specs.Percent.{percent_decode};

use crate::text::is_text;
use percent_encoding::{PercentDecode, percent_decode};

/// Whether bytes with their percent escapes read are UTF-8. It takes no memory.
pub fn is_escaped_text(raw: &[u8]) -> bool
    ensures { result ≡ is_utf8 (percent_decode raw.now) }
{
    let mut bytes = percent_decode(raw);
    while let Some(first) = bytes.next() {
        if !takes_character(first, &mut bytes) {
            return false;
        }
    }
    true
}

// Whether a first byte and those that are to follow it are a character.
fn takes_character(first: u8, bytes: &mut PercentDecode<'_>) -> bool
    ensures value { MatchBool result (is_utf8 (first ∷ decoded_bytes bytes.old) ≡ is_utf8 (decoded_bytes bytes.new))
        (is_utf8 (first ∷ decoded_bytes bytes.old) ≡ false) }
    ensures fewer { length (decoded_bytes bytes.new) ≤ length (decoded_bytes bytes.old) }
{
    let mut piece = [first, 0, 0, 0];
    let len = len_by_first(first);
    for at in 1..len {
        let Some(byte) = bytes.next() else {
            return false;
        };
        piece[at] = byte;
    }
    is_text(&piece[..len])
}

// How many bytes a character has that begins with this one.
fn len_by_first(first: u8) -> usize
    ensures value { result ≡ 1 + continuation_len first }
    ensures within { result ≤ 4 }
{
    match first {
        0..0x80 => 1,
        0x80..0xe0 => 2,
        0xe0..0xf0 => 3,
        _ => 4,
    }
}
