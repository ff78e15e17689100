ghost use Rattle.std.specs.Prelude.{◌≡◌};
ghost use Rattle.collection_ops.specs.declared.fault.ItemFault.TheVariants as fault;

use lists::Memory;
use thiserror::Error;

/// Why a call of a collection's items was refused.
#[derive(Clone, Copy, Debug, PartialEq, Eq, Error)]
pub enum ItemFault {
    #[error("no such item")]
    NoItem,
    #[error("the set holds the value")]
    Present,
    /// The item with the greatest number was given.
    #[error("no item number is left")]
    NumbersSpent,
    #[error("out of memory")]
    Memory,
}

impl From<Memory> for ItemFault {
    ghost from_gives = { λ _ given. given ≡ fault.Memory };

    fn from(_: Memory) -> Self {
        ItemFault::Memory
    }
}
