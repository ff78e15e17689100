//! Why a view edit has no pairs.
ghost use Rattle.std.specs.Prelude.{◌≡◌};
ghost use Rattle.live_state.specs.declared.fault.ExpandFault.TheVariants as fault;

use lists::Memory;
use thiserror::Error;

/// Why a view edit has no pairs.
#[derive(Clone, Copy, Debug, PartialEq, Eq, Error)]
pub enum ExpandFault {
    #[error("no such row")]
    NoRef,
    #[error("out of memory")]
    Memory,
}

impl From<Memory> for ExpandFault {
    ghost from_gives = { λ _ given. given ≡ fault.Memory };

    fn from(_: Memory) -> Self {
        ExpandFault::Memory
    }
}
