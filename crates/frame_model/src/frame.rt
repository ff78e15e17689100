ghost use Rattle.std.specs.Prelude.{◌≡◌, IfOk};

use schema_model::{Bytes, Memory, Text};
use std::alloc::Global;

/// What a message is about.
#[derive(Debug, Drop)]
pub enum MsgKind {
    Name(Text),
    Num(i32),
}

impl MsgKind {
    /// The same kind again.
    pub fn copy(&self, alloc: Global) -> Result<MsgKind, Memory>
        ensures { IfOk result (λ k. k ≡ self.now) }
    {
        Ok(match self {
            MsgKind::Name(name) => MsgKind::Name(name.copy(alloc)?),
            MsgKind::Num(number) => MsgKind::Num(*number),
        })
    }
}

/// A frame from the server.
#[derive(Debug, Drop)]
pub enum ServerFrame {
    /// The token of the seat, and the handshake of the serializer.
    Join(Bytes, Bytes),
    Fault(i32, Text),
    Leave,
    /// The payload is MessagePack, or nothing.
    Msg(MsgKind, Bytes),
    /// A full state.
    State(Bytes),
    /// A patch of the state.
    Patch(Bytes),
    Raw(MsgKind, Bytes),
}

/// A frame from a client.
#[derive(Debug, Drop)]
pub enum ClientFrame {
    /// The acknowledgement of a join.
    Ack,
    Leave,
    /// The payload is MessagePack, or nothing.
    Msg(MsgKind, Bytes),
    Raw(MsgKind, Bytes),
}
