//! Frames as bytes.
ghost use Rattle.std.specs.Prelude.{◌≡◌, ◌≤◌, ◌<◌, ◌^◌, ◌++◌, ◌∷◌, true, codes, length, pos, Ok, IfOk, OnOk, OnErr};
ghost use Rattle.std.specs.Io.{StartsWith};
ghost use Rattle.std.specs.Str.{is_utf8};
ghost use Rattle.schema_model.specs.Fits.{in_signed};
ghost use Rattle.schema_model.specs.Spelling.{number_bytes, text_bytes};
ghost use Rattle.frame_model.specs.Frames.{client_bytes, kind_bytes, server_bytes, short_text};
ghost use Rattle.frame_model.specs.Reading.{read_client};
ghost use Rattle.frame_model.specs.ServerReading.{read_server};
ghost use Rattle.frame_model.specs.declared.frame.ServerFrame.TheVariants as server;
ghost use Rattle.client_frames.specs.Kinds.{IsKept};
ghost use Rattle.client_frames.specs.Written.{HasClientBytes, HasServerBytes, IsShortKind};

use crate::server::SERIALIZER;
use frame_model::codes::{
    ERROR, JOIN_ROOM, LEAVE_ROOM, ROOM_DATA, ROOM_DATA_BYTES, ROOM_STATE, ROOM_STATE_PATCH,
};
use frame_model::{ClientFrame, MsgKind, ServerFrame};
use scalar_codec::{put_number, put_text};
use schema_model::{Bytes, Memory, Text};
use std::alloc::Global;

/// Appends a server's frame. An `Err` leaves `out` as it was.
pub fn write_server(out: &mut Vec<u8>, frame: &ServerFrame) -> Result<(), Memory>
    requires { HasServerBytes frame.now }
    ensures ok { OnOk result (out.new.items ≡ out.old.items ++ server_bytes frame.now) }
    // What was written is read again as the frame.
    ensures again { read_server (server_bytes frame.now) ≡ Ok frame.now }
    ensures err { OnErr result (out.new.items ≡ out.old.items) }
{
    let before = out.len();
    let outcome = put_server(out, frame);
    if outcome.is_err() {
        out.truncate(before);
    }
    outcome
}

/// The ERROR frame of a code with a text.
pub fn error_frame(alloc: Global, code: u16, text: &str) -> Result<Bytes, Memory>
    requires { length text.now < 2 ^ 32 }
    ensures { IfOk result (λ bytes. bytes ≡ server_bytes (server.Fault (pos code) text.now)) }
{
    let text = Text::from_text(alloc, text)?;
    let mut out = Vec::new(alloc);
    write_server(&mut out, &ServerFrame::Fault(i32::from(code), text))?;
    Ok(Bytes::from_vec(out))
}

/// Appends a client's frame. An `Err` leaves `out` as it was.
pub fn write_client(out: &mut Vec<u8>, frame: &ClientFrame) -> Result<(), Memory>
    requires { HasClientBytes frame.now }
    ensures ok { OnOk result (out.new.items ≡ out.old.items ++ client_bytes frame.now) }
    // What was written is read again as the frame.
    ensures again { read_client (client_bytes frame.now) ≡ Ok frame.now }
    ensures err { OnErr result (out.new.items ≡ out.old.items) }
{
    let before = out.len();
    let outcome = put_client(out, frame);
    if outcome.is_err() {
        out.truncate(before);
    }
    outcome
}

/// Appends a server's message with a payload of MessagePack, by its parts. An `Err` leaves `out` as it was.
pub fn write_message(out: &mut Vec<u8>, kind: &MsgKind, payload: &[u8]) -> Result<(), Memory>
    requires { IsShortKind kind.now }
    ensures ok { OnOk result (out.new.items ≡ out.old.items ++ server_bytes (server.Msg kind.now payload.now)) }
    ensures err { OnErr result (out.new.items ≡ out.old.items) }
{
    write_parts(out, ROOM_DATA, kind, payload)
}

/// Appends a server's message of raw bytes, by its parts. An `Err` leaves `out` as it was.
pub fn write_raw(out: &mut Vec<u8>, kind: &MsgKind, payload: &[u8]) -> Result<(), Memory>
    requires { IsShortKind kind.now }
    ensures ok { OnOk result (out.new.items ≡ out.old.items ++ server_bytes (server.Raw kind.now payload.now)) }
    ensures err { OnErr result (out.new.items ≡ out.old.items) }
{
    write_parts(out, ROOM_DATA_BYTES, kind, payload)
}

// A message behind its code. An `Err` leaves `out` as it was.
fn write_parts(out: &mut Vec<u8>, code: u8, kind: &MsgKind, payload: &[u8]) -> Result<(), Memory>
    requires { IsShortKind kind.now }
    ensures ok { OnOk result (out.new.items ≡ out.old.items ++ code ∷ (kind_bytes kind.now ++ payload.now)) }
    ensures err { OnErr result (out.new.items ≡ out.old.items) }
{
    let before = out.len();
    let outcome = put_message(out, code, kind, payload);
    if outcome.is_err() {
        out.truncate(before);
    }
    outcome
}

// The calls below leave on an `Err` what was there, and maybe some more bytes.
fn put_server(out: &mut Vec<u8>, frame: &ServerFrame) -> Result<(), Memory>
    requires { HasServerBytes frame.now }
    ensures ok { OnOk result (out.new.items ≡ out.old.items ++ server_bytes frame.now) }
    ensures again { read_server (server_bytes frame.now) ≡ Ok frame.now }
    ensures err { OnErr result (StartsWith out.new.items out.old.items) }
{
    match frame {
        ServerFrame::Join(token, handshake) => put_join(
            out,
            token.as_slice(),
            handshake.as_slice(),
        ),
        ServerFrame::Fault(code, text) => put_fault(out, *code, text.as_str()),
        ServerFrame::Leave => put_behind(out, LEAVE_ROOM, &[]),
        ServerFrame::Msg(kind, payload) => put_message(out, ROOM_DATA, kind, payload.as_slice()),
        ServerFrame::State(state) => put_behind(out, ROOM_STATE, state.as_slice()),
        ServerFrame::Patch(patch) => put_behind(out, ROOM_STATE_PATCH, patch.as_slice()),
        ServerFrame::Raw(kind, payload) => {
            put_message(out, ROOM_DATA_BYTES, kind, payload.as_slice())
        }
    }
}

fn put_client(out: &mut Vec<u8>, frame: &ClientFrame) -> Result<(), Memory>
    requires { HasClientBytes frame.now }
    ensures ok { OnOk result (out.new.items ≡ out.old.items ++ client_bytes frame.now) }
    ensures again { read_client (client_bytes frame.now) ≡ Ok frame.now }
    ensures err { OnErr result (StartsWith out.new.items out.old.items) }
{
    match frame {
        ClientFrame::Ack => put_behind(out, JOIN_ROOM, &[]),
        ClientFrame::Leave => put_behind(out, LEAVE_ROOM, &[]),
        ClientFrame::Msg(kind, payload) => put_message(out, ROOM_DATA, kind, payload.as_slice()),
        ClientFrame::Raw(kind, payload) => {
            put_message(out, ROOM_DATA_BYTES, kind, payload.as_slice())
        }
    }
}

// Bytes behind a code.
fn put_behind(out: &mut Vec<u8>, code: u8, bytes: &[u8]) -> Result<(), Memory>
    ensures ok { OnOk result (out.new.items ≡ out.old.items ++ code ∷ bytes.now) }
    ensures err { OnErr result (StartsWith out.new.items out.old.items) }
{
    out.push(code)?;
    out.extend_from_slice(bytes)?;
    Ok(())
}

fn put_join(out: &mut Vec<u8>, token: &[u8], handshake: &[u8]) -> Result<(), Memory>
    requires { length token.now ≤ 255 }
    ensures ok { OnOk result (out.new.items ≡ out.old.items ++ 10 ∷ (short_text token.now ++ (short_text (codes "schema") ++ handshake.now))) }
    ensures err { OnErr result (StartsWith out.new.items out.old.items) }
{
    out.push(JOIN_ROOM)?;
    put_short(out, token)?;
    put_short(out, SERIALIZER)?;
    out.extend_from_slice(handshake)?;
    Ok(())
}

// Bytes behind one byte of their length.
fn put_short(out: &mut Vec<u8>, bytes: &[u8]) -> Result<(), Memory>
    requires { length bytes.now ≤ 255 }
    ensures ok { OnOk result (out.new.items ≡ out.old.items ++ short_text bytes.now) }
    ensures err { OnErr result (StartsWith out.new.items out.old.items) }
{
    put_behind(out, bytes.len() as u8, bytes)
}

fn put_fault(out: &mut Vec<u8>, code: i32, text: &str) -> Result<(), Memory>
    requires { length text.now < 2 ^ 32 }
    ensures ok { OnOk result (out.new.items ≡ out.old.items ++ 11 ∷ (number_bytes code ++ text_bytes text.now)) }
    ensures number { in_signed (2 ^ 31) code ≡ true }
    ensures words { is_utf8 text.now ≡ true }
    ensures err { OnErr result (StartsWith out.new.items out.old.items) }
{
    out.push(ERROR)?;
    put_number(out, code)?;
    put_text(out, text)
}

fn put_message(out: &mut Vec<u8>, code: u8, kind: &MsgKind, payload: &[u8]) -> Result<(), Memory>
    requires { IsShortKind kind.now }
    ensures ok { OnOk result (out.new.items ≡ out.old.items ++ code ∷ (kind_bytes kind.now ++ payload.now)) }
    ensures kept { IsKept kind.now }
    ensures err { OnErr result (StartsWith out.new.items out.old.items) }
{
    put_kind(out, code, kind)?;
    out.extend_from_slice(payload)?;
    Ok(())
}

// A message kind behind a code.
fn put_kind(out: &mut Vec<u8>, code: u8, kind: &MsgKind) -> Result<(), Memory>
    requires { IsShortKind kind.now }
    ensures ok { OnOk result (out.new.items ≡ out.old.items ++ code ∷ kind_bytes kind.now) }
    ensures kept { IsKept kind.now }
    ensures err { OnErr result (StartsWith out.new.items out.old.items) }
{
    match kind {
        MsgKind::Name(name) => put_named(out, code, name.as_str()),
        MsgKind::Num(number) => put_numbered(out, code, *number),
    }
}

fn put_named(out: &mut Vec<u8>, code: u8, name: &str) -> Result<(), Memory>
    requires { length name.now < 2 ^ 32 }
    ensures ok { OnOk result (out.new.items ≡ out.old.items ++ code ∷ text_bytes name.now) }
    ensures kept { is_utf8 name.now ≡ true }
    ensures err { OnErr result (StartsWith out.new.items out.old.items) }
{
    out.push(code)?;
    put_text(out, name)
}

fn put_numbered(out: &mut Vec<u8>, code: u8, number: i32) -> Result<(), Memory>
    ensures ok { OnOk result (out.new.items ≡ out.old.items ++ code ∷ number_bytes number) }
    ensures kept { in_signed (2 ^ 31) number ≡ true }
    ensures err { OnErr result (StartsWith out.new.items out.old.items) }
{
    out.push(code)?;
    put_number(out, number)
}
