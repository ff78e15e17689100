//! The message kind before a payload, which is read without memory and copied afterwards.
ghost use Rattle.std.specs.Prelude.{◌≡◌, ◌≤◌, false, length, slice_get, Ok, Err, MatchOption, IfSome, IfOk};
ghost use Rattle.std.specs.Option.{option_map_or};
ghost use Rattle.frame_model.specs.Reading.{begins_text, kind_at};
ghost use Rattle.frame_model.specs.declared.fault.FrameFault.TheVariants.{Bad};
ghost use Rattle.client_frames.specs.Kinds.{kind_of};

use frame_model::MsgKind;
use scalar_codec::{get_number, get_text};
use schema_model::{Bytes, Memory, Text};
use std::alloc::Global;

/// A message kind, whose name lies in the bytes that were read.
#[derive(Clone, Copy)]
pub enum Kind<'a> {
    Name(&'a str),
    Num(i32),
}

/// The message kind at a place and the place after it, or nothing where none can be read.
pub fn kind_at<'a>(bytes: &'a [u8], at: usize) -> Option<(Kind<'a>, usize)>
    requires { at ≤ length bytes.now }
    ensures value { MatchOption result
        (kind_at bytes.now at ≡ Err (Bad at))
        (λ read. kind_at bytes.now at ≡ Ok (kind_of read.0, read.1)) }
    ensures within { IfSome result (λ read. read.1 ≤ length bytes.now) }
{
    if begins_text_at(bytes, at) {
        let Ok((name, end)) = get_text(bytes, at) else {
            return None;
        };
        Some((Kind::Name(name), end))
    } else {
        let Ok((number, end)) = get_number(bytes, at) else {
            return None;
        };
        Some((Kind::Num(number), end))
    }
}

// The byte at a place, where there is one, begins a text.
fn begins_text_at(bytes: &[u8], at: usize) -> bool
    ensures { result ≡ option_map_or begins_text (slice_get bytes.now at) false }
{
    match bytes.get(at) {
        Some(first) => matches!(first, 0xa0..=0xbf | 0xd9 | 0xda | 0xdb),
        None => false,
    }
}

/// Copies of a message kind and of the payload behind it.
pub fn kept(alloc: Global, kind: Kind<'_>, payload: &[u8]) -> Result<(MsgKind, Bytes), Memory>
    ensures { IfOk result (λ copy. copy ≡ (kind_of kind.entry, payload.now)) }
{
    let kind = match kind {
        Kind::Name(name) => MsgKind::Name(Text::from_text(alloc, name)?),
        Kind::Num(number) => MsgKind::Num(number),
    };
    Ok((kind, Bytes::from_slice(alloc, payload)?))
}
