//! Why work gives no sum.
use lists::Memory;
use patch_decoder::OpFault;
use room_model::SeatFault;
use schema_reader::SchemaFault;
use thiserror::Error;

/// Why work gives no sum.
#[derive(Clone, Copy, Debug, Error)]
pub enum WorkFault {
    /// A schema, a frame or a seat was.
    #[error("refused")]
    Refused,
    #[error("out of memory")]
    Memory,
}

impl From<Memory> for WorkFault {
    fn from(_: Memory) -> Self {
        WorkFault::Memory
    }
}

impl WorkFault {
    fn of(is_memory: bool) -> WorkFault {
        if is_memory {
            WorkFault::Memory
        } else {
            WorkFault::Refused
        }
    }
}

impl From<SeatFault> for WorkFault {
    fn from(_: SeatFault) -> Self {
        WorkFault::Refused
    }
}

impl From<OpFault> for WorkFault {
    fn from(fault: OpFault) -> Self {
        WorkFault::of(matches!(fault, OpFault::Memory))
    }
}

impl From<SchemaFault> for WorkFault {
    fn from(fault: SchemaFault) -> Self {
        WorkFault::of(matches!(fault, SchemaFault::Memory))
    }
}
