ghost use Rattle.std.specs.Prelude.{◌≡◌};
ghost use Rattle.outside.specs.declared.fault.WireFault.TheVariants as wire;

use schema_model::Memory;
use std::alloc::AllocFailed;
use thiserror::Error;

/// A call to the outside failed, and the object's count of faults rose.
#[derive(Clone, Copy, Debug, PartialEq, Eq, Error)]
#[error("the outside failed")]
pub struct Failed;

/// Why a call of a wire gave nothing.
#[derive(Clone, Copy, Debug, PartialEq, Eq, Error)]
pub enum WireFault {
    #[error("the wire failed")]
    Failed,
    #[error("out of memory")]
    Memory,
}

impl From<Memory> for WireFault {
    ghost from_gives = { λ _ fault. fault ≡ wire.Memory };

    fn from(_: Memory) -> Self {
        WireFault::Memory
    }
}

impl<T: Drop> From<AllocFailed<T>> for WireFault {
    ghost from_gives = { λ _ fault. fault ≡ wire.Memory };

    fn from(_: AllocFailed<T>) -> Self {
        WireFault::Memory
    }
}
