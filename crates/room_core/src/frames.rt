//! The frames of a room.
ghost use Rattle.std.specs.Prelude.{◌≡◌, IfOk};
ghost use Rattle.client_frames.specs.Written.{HasServerBytes, IsShortKind};
ghost use Rattle.frame_model.specs.Frames.{server_bytes};
ghost use Rattle.frame_model.specs.declared.frame.ServerFrame.TheVariants as server;
ghost use Rattle.room_model.specs.Room.{join_frame as join_bytes, unread_frame as unread_bytes};

use client_frames::{MsgKind, ServerFrame, error_frame, write_message, write_raw, write_server};
use frame_model::codes::INVALID_PAYLOAD;
use schema_model::{Bytes, Id, Memory};
use std::alloc::Global;

/// The JOIN_ROOM frame with a fresh token.
pub fn join_frame(alloc: Global, fresh: Id) -> Result<Bytes, Memory>
    ensures { IfOk result (λ bytes. bytes ≡ join_bytes fresh) }
{
    let token = fresh.0;
    let handshake = Bytes::from_vec(Vec::new(alloc));
    written(
        alloc,
        &ServerFrame::Join(Bytes::from_slice(alloc, &token)?, handshake),
    )
}

/// The frame that answers one that can't be read.
pub fn unread_frame(alloc: Global) -> Result<Bytes, Memory>
    ensures { IfOk result (λ bytes. bytes ≡ unread_bytes) }
{
    error_frame(alloc, INVALID_PAYLOAD, "invalid payload")
}

/// The frame of a full state.
pub fn full_frame(alloc: Global, state: Bytes) -> Result<Bytes, Memory>
    ensures { IfOk result (λ bytes. bytes ≡ server_bytes (server.State state)) }
{
    written(alloc, &ServerFrame::State(state))
}

/// The frame of a patch.
pub fn patch_frame(alloc: Global, state: Bytes) -> Result<Bytes, Memory>
    ensures { IfOk result (λ bytes. bytes ≡ server_bytes (server.Patch state)) }
{
    written(alloc, &ServerFrame::Patch(state))
}

// The bytes of a frame.
fn written(alloc: Global, frame: &ServerFrame) -> Result<Bytes, Memory>
    requires { HasServerBytes frame.now }
    ensures { IfOk result (λ bytes. bytes ≡ server_bytes frame.now) }
{
    let mut out = Vec::new(alloc);
    write_server(&mut out, frame)?;
    Ok(Bytes::from_vec(out))
}

/// The frame of a message with a payload of MessagePack.
pub fn message_frame(alloc: Global, kind: &MsgKind, payload: &Bytes) -> Result<Bytes, Memory>
    requires { IsShortKind kind.now }
    ensures { IfOk result (λ bytes. bytes ≡ server_bytes (server.Msg kind.now payload.now)) }
{
    let mut out = Vec::new(alloc);
    write_message(&mut out, kind, payload.as_slice())?;
    Ok(Bytes::from_vec(out))
}

/// The frame of a message of raw bytes.
pub fn raw_frame(alloc: Global, kind: &MsgKind, payload: &Bytes) -> Result<Bytes, Memory>
    requires { IsShortKind kind.now }
    ensures { IfOk result (λ bytes. bytes ≡ server_bytes (server.Raw kind.now payload.now)) }
{
    let mut out = Vec::new(alloc);
    write_raw(&mut out, kind, payload.as_slice())?;
    Ok(Bytes::from_vec(out))
}
