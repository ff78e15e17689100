//! Why a script, a body or a call of the presence is refused.
ghost use Rattle.std.specs.Prelude.{◌≡◌};
ghost use Rattle.script_model.specs.declared.fault.BodyFault.TheVariants as body;
ghost use Rattle.script_model.specs.declared.fault.PresenceFault.TheVariants as presence;
ghost use Rattle.script_model.specs.declared.fault.ScriptFault.TheVariants as script;

use schema_model::Memory;
use thiserror::Error;

/// Why a text is no script.
#[derive(Clone, Copy, Debug, PartialEq, Eq, Error)]
pub enum ScriptFault {
    /// The first line that can't stand where it stands, counted from 1.
    #[error("line {0}")]
    Line(u32),
    #[error("out of memory")]
    Memory,
}

impl From<Memory> for ScriptFault {
    ghost from_gives = { λ _ given. given ≡ script.Memory };

    fn from(_: Memory) -> Self {
        ScriptFault::Memory
    }
}

/// Why the body of a request is no payload.
#[derive(Clone, Copy, Debug, PartialEq, Eq, Error)]
pub enum BodyFault {
    #[error("invalid payload")]
    BadPayload,
    #[error("out of memory")]
    Memory,
}

impl From<Memory> for BodyFault {
    ghost from_gives = { λ _ given. given ≡ body.Memory };

    fn from(_: Memory) -> Self {
        BodyFault::Memory
    }
}

/// Why the presence refuses a call.
#[derive(Clone, Copy, Debug, PartialEq, Eq, Error)]
pub enum PresenceFault {
    /// What is stored under the key is of another kind.
    #[error("stored as another kind")]
    WrongKind,
    /// The sum isn't in -2^63 .. 2^63 - 1.
    #[error("out of range")]
    OutOfRange,
    #[error("out of memory")]
    Memory,
}

impl From<Memory> for PresenceFault {
    ghost from_gives = { λ _ given. given ≡ presence.Memory };

    fn from(_: Memory) -> Self {
        PresenceFault::Memory
    }
}
