//! The core of a client.
ghost use Rattle.std.specs.Prelude.{◌≡◌, false, Err, IfOk, IsOk};
ghost use Rattle.frame_model.specs.ServerReading.{read_server};
ghost use Rattle.life_model.specs.Clients.{after_frame, after_full, after_patch, client_turn, closed, new_client};
ghost use Rattle.client_core.specs.Cores.{Takes, after_fault, is_patch, state_fault};

use client_frames::read_server;
use frame_model::codes::ROOM_STATE_PATCH;
use frame_model::{FrameFault, ServerFrame};
use life_model::{ClientFault, ClientOut};
use lists::Memory;
use patch_decoder::Decoder;
use plain_rows::Rows;
use schema_model::Schema;
use std::alloc::Global;
use std::marker::Model;
use wire_model::OpFault;

/// What a client makes of the frames from its server. After `take` answered `Memory` it answers it for good.
#[derive(Drop)]
pub struct ClientCore {
    alloc: Global,
    decoder: Decoder,
    ready: bool,
    closed: bool,
    spent: bool,
}

impl Model for ClientCore {
    ghost use Rattle.client_core.specs.Cores.{Core};

    ghost Value = { Core };

    ghost view = { λ c. record { schema = c.decoder.schema; client = record { rows = c.decoder.rows; ready = c.ready; closed = c.closed }; spent = c.spent } };
}

impl ClientCore {
    /// Before the first frame: the root alone.
    pub fn new(alloc: Global, schema: Schema) -> Result<ClientCore, Memory>
        ensures { IfOk result (λ c. c ≡ record { schema = schema; client = new_client schema; spent = false }) }
    {
        let decoder = Decoder::new(alloc, schema)?;
        Ok(ClientCore {
            alloc,
            decoder,
            ready: false,
            closed: false,
            spent: false,
        })
    }

    /// The rows.
    pub fn rows(&self) -> Result<Rows, Memory>
        ensures { IfOk result (λ rows. rows ≡ self.now.client.rows) }
    {
        self.decoder.rows()
    }

    /// The connection is closed: from now on each frame is refused.
    pub fn close(&mut self)
        ensures { self.new ≡ record { schema = self.old.schema; client = closed self.old.client; spent = self.old.spent } }
    {
        self.closed = true;
    }

    /// Takes a frame. A closed client refuses it before it is looked at. A refusal changes nothing.
    pub fn take(&mut self, frame: &[u8]) -> Result<ClientOut, ClientFault>
        ensures { Takes (client_turn self.old.schema self.old.client frame.now) self.old self.new result }
    {
        if self.spent {
            return Err(ClientFault::Memory);
        }
        if self.closed {
            return Err(ClientFault::Closed);
        }
        match read_server(self.alloc, frame) {
            Ok(frame) => self.follow(frame),
            Err(FrameFault::Memory) => Err(self.unread(frame)),
            Err(fault) => Err(ClientFault::Frame(fault)),
        }
    }

    // Memory ran out for a frame. A patch before a full state is refused even so.
    fn unread(&mut self, frame: &[u8]) -> ClientFault
        requires unclosed { self.old.client.closed ≡ false }
        requires spent { self.old.spent ≡ false }
        requires there { IsOk (read_server frame.now) }
        ensures { Takes (client_turn self.old.schema self.old.client frame.now) self.old self.new (Err result) }
    {
        if !self.ready && is_patch(frame) {
            return ClientFault::BeforeFull;
        }
        self.spent = true;
        ClientFault::Memory
    }

    // Follows a frame that was read.
    fn follow(&mut self, frame: ServerFrame) -> Result<ClientOut, ClientFault>
        requires { self.old.spent ≡ false }
        ensures { Takes (after_frame self.old.schema self.old.client frame) self.old self.new result }
    {
        match frame {
            ServerFrame::Join(_, _) => {
                self.ready = false;
                Ok(ClientOut::Answer)
            }
            ServerFrame::Fault(code, text) => Ok(ClientOut::Error(code, text)),
            ServerFrame::Leave => {
                self.closed = true;
                Ok(ClientOut::Left)
            }
            ServerFrame::Msg(kind, payload) => Ok(ClientOut::Message(kind, payload)),
            ServerFrame::State(bytes) => self.full(bytes.as_slice()),
            ServerFrame::Patch(bytes) => self.patch(bytes.as_slice()),
            ServerFrame::Raw(kind, payload) => Ok(ClientOut::Raw(kind, payload)),
        }
    }

    // A full state.
    fn full(&mut self, bytes: &[u8]) -> Result<ClientOut, ClientFault>
        requires { self.old.spent ≡ false }
        ensures { Takes (after_full self.old.schema self.old.client bytes.now) self.old self.new result }
    {
        match self.decoder.full(bytes) {
            Ok(()) => {
                self.ready = true;
                Ok(ClientOut::Full)
            }
            Err(fault) => Err(self.failed(fault)),
        }
    }

    // A patch.
    fn patch(&mut self, bytes: &[u8]) -> Result<ClientOut, ClientFault>
        requires { self.old.spent ≡ false }
        ensures { Takes (after_patch self.old.schema self.old.client bytes.now) self.old self.new result }
    {
        if !self.ready {
            return Err(ClientFault::BeforeFull);
        }
        match self.decoder.patch(bytes) {
            Ok(()) => Ok(ClientOut::Patched),
            Err(fault) => Err(self.failed(fault)),
        }
    }

    // A state wasn't taken: its fault as a client's.
    fn failed(&mut self, fault: OpFault) -> ClientFault
        ensures fault { result ≡ state_fault fault }
        ensures new { self.new ≡ after_fault fault self.old }
    {
        match fault {
            OpFault::Memory => {
                self.spent = true;
                ClientFault::Memory
            }
            OpFault::Scalar(_)
            | OpFault::UnknownRef(_)
            | OpFault::UnknownField(_)
            | OpFault::UnknownType(_)
            | OpFault::UnknownOp(_, _)
            | OpFault::Unsupported(_, _)
            | OpFault::NoItem(_)
            | OpFault::WrongClass(_) => ClientFault::State(fault),
        }
    }
}

// Whether bytes are a patch's, by their code.
fn is_patch(frame: &[u8]) -> bool
    ensures { result ≡ is_patch frame.now }
{
    let [code, ..] = frame else {
        return false;
    };
    *code == ROOM_STATE_PATCH
}
