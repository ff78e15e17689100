//! The frames of a server that aren't one byte alone. Bytes are copied once all of them are known to be a frame.
ghost use Rattle.std.specs.Prelude.{◌≡◌, ◌≤◌, length, Ok, Err, MatchOption, IfOk, IfSome};
ghost use Rattle.schema_model.specs.Reading.{◌>>=◌ as ◌then◌};
ghost use Rattle.frame_model.specs.Reading.{kind_at};
ghost use Rattle.frame_model.specs.ServerReading.{behind, counted_at, faulted, joined};
ghost use Rattle.frame_model.specs.declared.fault.FrameFault.TheVariants.{Bad};
ghost use Rattle.frame_model.specs.declared.frame.ServerFrame.TheVariants as server;
ghost use Rattle.client_frames.specs.Given.{GivesFrame};

use crate::kind::{kept, kind_at};
use frame_model::{FrameFault, ServerFrame};
use scalar_codec::{get_number, get_text};
use schema_model::{Bytes, Memory, Text};
use std::alloc::Global;

/// The name of the serializer of states.
pub const SERIALIZER: &[u8] = b"schema";

/// A token, the name of the serializer, and its handshake.
#[tactic(auto, unfolding(frame_model::specs::ServerReading::joined))]
pub fn joined(alloc: Global, bytes: &[u8]) -> Result<ServerFrame, FrameFault>
    requires { 1 ≤ length bytes.now }
    ensures { GivesFrame result (joined bytes.now) }
{
    let Some((token, at)) = counted_at(bytes, 1) else {
        return Err(FrameFault::Bad(1));
    };
    let Some((word, end)) = counted_at(bytes, at) else {
        return Err(FrameFault::Bad(at));
    };
    if word != SERIALIZER {
        return Err(FrameFault::Bad(at));
    }
    welcome(alloc, token, &bytes[end..]).map_err(|_| FrameFault::Memory)
}

fn welcome(alloc: Global, token: &[u8], handshake: &[u8]) -> Result<ServerFrame, Memory>
    ensures { IfOk result (λ frame. frame ≡ server.Join token.now handshake.now) }
{
    let token = Bytes::from_slice(alloc, token)?;
    let handshake = Bytes::from_slice(alloc, handshake)?;
    Ok(ServerFrame::Join(token, handshake))
}

// The bytes behind one byte of their length, and the place after them.
fn counted_at<'a>(bytes: &'a [u8], at: usize) -> Option<(&'a [u8], usize)>
    requires { at ≤ length bytes.now }
    ensures value { MatchOption result
        (counted_at bytes.now at ≡ Err (Bad at))
        (λ read. counted_at bytes.now at ≡ Ok (read.0.now, read.1)) }
    ensures within { IfSome result (λ read. read.1 ≤ length bytes.now) }
{
    let len = usize::from(*bytes.get(at)?);
    let start = at + 1;
    if bytes.len() - start < len {
        return None;
    }
    let end = start + len;
    Some((&bytes[start..end], end))
}

/// The code and the text of an error.
#[tactic(auto, unfolding(frame_model::specs::ServerReading::faulted))]
pub fn faulted(alloc: Global, bytes: &[u8]) -> Result<ServerFrame, FrameFault>
    requires { 1 ≤ length bytes.now }
    ensures { GivesFrame result (faulted bytes.now) }
{
    let Ok((code, at)) = get_number(bytes, 1) else {
        return Err(FrameFault::Bad(1));
    };
    let Ok((text, end)) = get_text(bytes, at) else {
        return Err(FrameFault::Bad(at));
    };
    if end != bytes.len() {
        return Err(FrameFault::Bad(end));
    }
    let text = Text::from_text(alloc, text).map_err(|_| FrameFault::Memory)?;
    Ok(ServerFrame::Fault(code, text))
}

/// A message, whose payload isn't looked at.
pub fn server_message(alloc: Global, bytes: &[u8]) -> Result<ServerFrame, FrameFault>
    requires { 1 ≤ length bytes.now }
    ensures { GivesFrame result (kind_at bytes.now 1 then behind server.Msg bytes.now) }
{
    let Some((kind, start)) = kind_at(bytes, 1) else {
        return Err(FrameFault::Bad(1));
    };
    let (kind, payload) = kept(alloc, kind, &bytes[start..]).map_err(|_| FrameFault::Memory)?;
    Ok(ServerFrame::Msg(kind, payload))
}

/// A message of raw bytes.
pub fn server_raw(alloc: Global, bytes: &[u8]) -> Result<ServerFrame, FrameFault>
    requires { 1 ≤ length bytes.now }
    ensures { GivesFrame result (kind_at bytes.now 1 then behind server.Raw bytes.now) }
{
    let Some((kind, start)) = kind_at(bytes, 1) else {
        return Err(FrameFault::Bad(1));
    };
    let (kind, payload) = kept(alloc, kind, &bytes[start..]).map_err(|_| FrameFault::Memory)?;
    Ok(ServerFrame::Raw(kind, payload))
}

/// A full state.
pub fn state(alloc: Global, bytes: &[u8]) -> Result<ServerFrame, FrameFault>
    ensures { GivesFrame result (Ok (server.State bytes.now)) }
{
    let bytes = Bytes::from_slice(alloc, bytes).map_err(|_| FrameFault::Memory)?;
    Ok(ServerFrame::State(bytes))
}

/// A patch of the state.
pub fn patch(alloc: Global, bytes: &[u8]) -> Result<ServerFrame, FrameFault>
    ensures { GivesFrame result (Ok (server.Patch bytes.now)) }
{
    let bytes = Bytes::from_slice(alloc, bytes).map_err(|_| FrameFault::Memory)?;
    Ok(ServerFrame::Patch(bytes))
}
