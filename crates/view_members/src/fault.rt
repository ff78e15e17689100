ghost use Rattle.std.specs.Prelude.{◌≡◌};
ghost use Rattle.view_members.specs.declared.fault.MemberFault.TheVariants as fault;

use lists::Memory;
use thiserror::Error;

/// Why pairs weren't added.
#[derive(Clone, Copy, Debug, PartialEq, Eq, Error)]
pub enum MemberFault {
    /// More than 65,536 pairs would have been members at some time since the last tick.
    #[error("the view is full")]
    ViewFull,
    #[error("out of memory")]
    Memory,
}

impl From<Memory> for MemberFault {
    ghost from_gives = { λ _ given. given ≡ fault.Memory };

    fn from(_: Memory) -> Self {
        MemberFault::Memory
    }
}
