use thiserror::Error;

/// Why bytes are no scalar of a kind. `Short` carries the length of the bytes, the others the place
/// of the first byte of the value.
#[derive(Clone, Copy, Debug, PartialEq, Eq, Error)]
pub enum ReadFault {
    /// The bytes end within the value.
    #[error("the {0} bytes end within a value")]
    Short(usize),
    /// A number in floating form.
    #[error("a floating number at {0}")]
    Fractional(usize),
    /// A whole number outside 32 bits.
    #[error("a number at {0} is too wide")]
    TooWide(usize),
    /// A text that isn't UTF-8.
    #[error("a text at {0} is not UTF-8")]
    BadText(usize),
    /// A first byte that begins no form, or a negative number where none may stand.
    #[error("no form of a value at {0}")]
    BadForm(usize),
}

/// Why a scalar couldn't be read.
#[derive(Clone, Copy, Debug, PartialEq, Eq, Error)]
pub enum ScalarFault {
    #[error("{0}")]
    Read(ReadFault),
    #[error("out of memory")]
    Memory,
}
