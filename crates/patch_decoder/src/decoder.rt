ghost use Rattle.std.specs.Prelude.{◌≡◌, false, IfOk};
ghost use Rattle.state_model.specs.Rows.{root_alone};
ghost use Rattle.wire_model.specs.Decoded.{decoded};
ghost use Rattle.patch_decoder.specs.Decoders.{Takes, Took, AreKnown};

use crate::reading::{decoded, decoded_anew};
use lists::Memory;
use plain_rows::Rows;
use schema_model::Schema;
use std::alloc::Global;
use std::marker::Model;
use wire_model::OpFault;

/// The rows that a client makes of state frames. After it answered `Memory` it answers it for good.
#[derive(Drop)]
pub struct Decoder {
    alloc: Global,
    schema: Schema,
    rows: Rows,
    spent: bool,
}

impl Model for Decoder {
    ghost use Rattle.patch_decoder.specs.Decoders.{DecoderState, AreKnown};

    ghost Value = { DecoderState };

    ghost view = { λ d. record { schema = d.schema; rows = d.rows; spent = d.spent } };

    ghost invariant = { λ d. AreKnown d.schema d.rows };
}

impl Decoder {
    /// The root alone.
    pub fn new(alloc: Global, schema: Schema) -> Result<Decoder, Memory>
        ensures { IfOk result (λ d. d ≡ record { schema = schema; rows = root_alone schema; spent = false }) }
    {
        let rows = Rows::root_alone(alloc, &schema)?;
        Ok(Decoder {
            alloc,
            schema,
            rows,
            spent: false,
        })
    }

    /// A full state: starts anew from the root alone. The bytes are those behind the frame code, and places count in
    /// them. A refused one changes nothing.
    pub fn full(&mut self, bytes: &[u8]) -> Result<(), OpFault>
        ensures { Takes (decoded self.old.schema bytes.now (root_alone self.old.schema)) self.old self.new result }
    {
        if self.spent {
            return Err(OpFault::Memory);
        }
        let answer = decoded_anew(self.alloc, &self.schema, bytes);
        self.take(answer)
    }

    /// A patch: goes on from the rows so far. The bytes are those behind the frame code, and places count in them. A
    /// refused one changes nothing.
    pub fn patch(&mut self, bytes: &[u8]) -> Result<(), OpFault>
        ensures { Takes (decoded self.old.schema bytes.now self.old.rows) self.old self.new result }
    {
        if self.spent {
            return Err(OpFault::Memory);
        }
        let answer = decoded(self.alloc, &self.schema, &self.rows, bytes);
        self.take(answer)
    }

    // Takes the rows that a frame led to.
    fn take(&mut self, answer: Result<Rows, OpFault>) -> Result<(), OpFault>
        requires spent { self.old.spent ≡ false }
        requires known { IfOk answer (λ after. AreKnown self.old.schema after) }
        ensures { Took answer self.old self.new result }
    {
        match answer {
            Ok(rows) => {
                self.rows = rows;
                Ok(())
            }
            Err(fault) => {
                self.spent = fault == OpFault::Memory;
                Err(fault)
            }
        }
    }

    /// The rows.
    pub fn rows(&self) -> Result<Rows, Memory>
        ensures { IfOk result (λ r. r ≡ self.now.rows) }
    {
        self.rows.copy(self.alloc)
    }
}
