//! The frames that bytes are.
ghost use Rattle.std.specs.Prelude.{◌≡◌, ◌≤◌, length};
ghost use Rattle.schema_model.specs.Reading.{◌>>=◌ as ◌then◌};
ghost use Rattle.frame_model.specs.Reading.{without_payload, is_payload, kind_at, message_behind, raw_behind, read_client};
ghost use Rattle.frame_model.specs.ServerReading.{read_server};
ghost use Rattle.client_frames.specs.Given.{GivesFrame};

use crate::kind::{kept, kind_at};
use crate::server::{faulted, joined, patch, server_message, server_raw, state};
use frame_model::codes::{
    ERROR, JOIN_ROOM, LEAVE_ROOM, ROOM_DATA, ROOM_DATA_BYTES, ROOM_STATE, ROOM_STATE_PATCH,
};
use frame_model::{ClientFrame, FrameFault, ServerFrame};
use msgpack_lite::check;
use std::alloc::Global;

// The longest frame of a client, in bytes.
const LONGEST: usize = 65_536;

/// The frame that a client's bytes are. `TooLong` comes first, of more than 65,536 bytes. A payload is looked at, and
/// kept as it came; out of memory is told only of bytes that are a frame.
pub fn read_client(alloc: Global, bytes: &[u8]) -> Result<ClientFrame, FrameFault>
    ensures { GivesFrame result (read_client bytes.now) }
{
    if bytes.len() > LONGEST {
        return Err(FrameFault::TooLong);
    }
    let [code, rest @ ..] = bytes else {
        return Err(FrameFault::Empty);
    };
    match *code {
        JOIN_ROOM => without_payload(ClientFrame::Ack, rest),
        LEAVE_ROOM => without_payload(ClientFrame::Leave, rest),
        ROOM_DATA => client_message(alloc, bytes),
        ROOM_DATA_BYTES => client_raw(alloc, bytes),
        code => Err(FrameFault::UnknownCode(code)),
    }
}

// A frame of one byte.
fn without_payload(frame: ClientFrame, rest: &[u8]) -> Result<ClientFrame, FrameFault>
    ensures { GivesFrame result (without_payload frame rest.now) }
{
    if rest.is_empty() {
        Ok(frame)
    } else {
        Err(FrameFault::Bad(1))
    }
}

fn client_message(alloc: Global, bytes: &[u8]) -> Result<ClientFrame, FrameFault>
    requires { 1 ≤ length bytes.now }
    ensures { GivesFrame result (kind_at bytes.now 1 then message_behind bytes.now) }
{
    let Some((kind, start)) = kind_at(bytes, 1) else {
        return Err(FrameFault::Bad(1));
    };
    let payload = &bytes[start..];
    if !is_payload(payload) {
        return Err(FrameFault::Bad(start));
    }
    let (kind, payload) = kept(alloc, kind, payload).map_err(|_| FrameFault::Memory)?;
    Ok(ClientFrame::Msg(kind, payload))
}

// Nothing, or one MessagePack value.
fn is_payload(payload: &[u8]) -> bool
    ensures { result ≡ is_payload payload.now }
{
    payload.is_empty() || check(payload).is_ok()
}

fn client_raw(alloc: Global, bytes: &[u8]) -> Result<ClientFrame, FrameFault>
    requires { 1 ≤ length bytes.now }
    ensures { GivesFrame result (kind_at bytes.now 1 then raw_behind bytes.now) }
{
    let Some((kind, start)) = kind_at(bytes, 1) else {
        return Err(FrameFault::Bad(1));
    };
    let (kind, payload) = kept(alloc, kind, &bytes[start..]).map_err(|_| FrameFault::Memory)?;
    Ok(ClientFrame::Raw(kind, payload))
}

/// The frame that a server's bytes are. A payload isn't looked at.
pub fn read_server(alloc: Global, bytes: &[u8]) -> Result<ServerFrame, FrameFault>
    ensures { GivesFrame result (read_server bytes.now) }
{
    let [code, rest @ ..] = bytes else {
        return Err(FrameFault::Empty);
    };
    match *code {
        JOIN_ROOM => joined(alloc, bytes),
        ERROR => faulted(alloc, bytes),
        LEAVE_ROOM if rest.is_empty() => Ok(ServerFrame::Leave),
        LEAVE_ROOM => Err(FrameFault::Bad(1)),
        ROOM_DATA => server_message(alloc, bytes),
        ROOM_STATE => state(alloc, rest),
        ROOM_STATE_PATCH => patch(alloc, rest),
        ROOM_DATA_BYTES => server_raw(alloc, bytes),
        code => Err(FrameFault::UnknownCode(code)),
    }
}
