//! What a client makes of a frame, and why it refuses one.
use frame_model::{FrameFault, MsgKind};
use schema_model::{Bytes, Text};
use thiserror::Error;
use wire_model::OpFault;

/// What a client makes of a frame from its server.
#[derive(Debug, Drop)]
pub enum ClientOut {
    /// It joined: the byte `0a` is to be sent.
    Answer,
    /// Its rows are those of a full state.
    Full,
    /// A patch was applied to its rows.
    Patched,
    /// A message whose payload is MessagePack, or nothing.
    Message(MsgKind, Bytes),
    /// A message of raw bytes.
    Raw(MsgKind, Bytes),
    /// The server tells an error.
    Error(i32, Text),
    /// The server ends the session; no frame comes any more.
    Left,
}

/// Why a client refuses a frame.
#[derive(Clone, Copy, Debug, PartialEq, Eq, Error)]
pub enum ClientFault {
    /// The bytes are no frame.
    #[error("{0}")]
    Frame(FrameFault),
    /// The bytes of a state are none.
    #[error("{0}")]
    State(OpFault),
    /// A patch with no full state since the latest join or the start.
    #[error("a patch before a full state")]
    BeforeFull,
    /// The connection was closed, or the server ended the session.
    #[error("closed")]
    Closed,
    #[error("out of memory")]
    Memory,
}
