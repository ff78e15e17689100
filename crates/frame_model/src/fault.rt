use schema_model::Memory;
use thiserror::Error;

/// Why bytes are no MessagePack value. `Short` carries the length of the bytes, `Trailing` the place after the value,
/// and the others the place of the first byte of the value that is refused.
#[derive(Clone, Copy, Debug, PartialEq, Eq, Error)]
pub enum PackFault {
    /// The bytes end within the value.
    #[error("the {0} bytes end within a value")]
    Short(usize),
    #[error("a floating number at {0}")]
    Float(usize),
    #[error("an extension at {0}")]
    Extension(usize),
    /// A text that isn't UTF-8.
    #[error("a text at {0} is not UTF-8")]
    BadText(usize),
    /// A key of a map that is no text.
    #[error("a key at {0} is no text")]
    KeyNotText(usize),
    /// A list or map on the 33rd level.
    #[error("the list or map at {0} is too deep")]
    TooDeep(usize),
    /// Bytes behind the value.
    #[error("bytes behind the value at {0}")]
    Trailing(usize),
    /// The byte that begins no form.
    #[error("no form of a value at {0}")]
    Reserved(usize),
    #[error("out of memory")]
    Memory,
}

/// Why bytes are no frame.
#[derive(Clone, Copy, Debug, PartialEq, Eq, Error)]
pub enum FrameFault {
    #[error("an empty frame")]
    Empty,
    #[error("no frame has the code {0}")]
    UnknownCode(u8),
    /// The place of the value that can't be read.
    #[error("the value at {0} can't be read")]
    Bad(usize),
    /// A client frame of more than 65,536 bytes.
    #[error("the frame is too long")]
    TooLong,
    #[error("out of memory")]
    Memory,
}

impl From<Memory> for PackFault {
    ghost use Rattle.std.specs.Prelude.{◌≡◌};
    ghost use Rattle.frame_model.specs.declared.fault.PackFault.TheVariants as fault;

    ghost from_gives = { λ _ given. given ≡ fault.Memory };

    fn from(_: Memory) -> Self {
        PackFault::Memory
    }
}
