//! Why a view edit is refused.
ghost use Rattle.std.specs.Prelude.{◌≡◌};
ghost use Rattle.live_state.specs.declared.fault.ExpandFault.TheVariants as expanding;
ghost use Rattle.view_members.specs.declared.fault.MemberFault.TheVariants as adding;
ghost use Rattle.view_edits.specs.declared.fault.EditFault.TheVariants as editing;

use live_state::ExpandFault;
use thiserror::Error;
use view_members::MemberFault;

/// Why a view edit is refused, in the order in which the causes are tested.
#[derive(Clone, Copy, Debug, PartialEq, Eq, Error)]
pub enum EditFault {
    #[error("no such row")]
    NoRef,
    #[error("the view has too many members")]
    ViewFull,
    #[error("out of memory")]
    Memory,
}

impl From<ExpandFault> for EditFault {
    ghost from_gives = { λ fault given. (fault ≡ expanding.NoRef → given ≡ editing.NoRef) × (fault ≡ expanding.Memory → given ≡ editing.Memory) };

    fn from(fault: ExpandFault) -> Self {
        match fault {
            ExpandFault::NoRef => EditFault::NoRef,
            ExpandFault::Memory => EditFault::Memory,
        }
    }
}

impl From<MemberFault> for EditFault {
    ghost from_gives = { λ fault given. (fault ≡ adding.ViewFull → given ≡ editing.ViewFull) × (fault ≡ adding.Memory → given ≡ editing.Memory) };

    fn from(fault: MemberFault) -> Self {
        match fault {
            MemberFault::ViewFull => EditFault::ViewFull,
            MemberFault::Memory => EditFault::Memory,
        }
    }
}
