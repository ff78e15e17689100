use schema_model::ReadFault;
use thiserror::Error;

/// Why state bytes are refused. A number is the place in the bytes: of the value, the number, the
/// operation or the type number that is refused; the second one is the byte of the operation.
#[derive(Clone, Copy, Debug, PartialEq, Eq, Error)]
pub enum OpFault {
    #[error("{0}")]
    Scalar(ReadFault),
    /// A switch to a row that isn't known, or a link to an unknown instance under an operation that adds none.
    #[error("an unknown reference at {0}")]
    UnknownRef(usize),
    /// A field that the class lacks.
    #[error("an unknown field at {0}")]
    UnknownField(usize),
    /// A type number that is no class.
    #[error("an unknown type at {0}")]
    UnknownType(usize),
    /// A byte that is no operation on this holder.
    #[error("an unknown operation {1} at {0}")]
    UnknownOp(usize, u8),
    /// An operation that moves or reverses arrays.
    #[error("an unsupported operation {1} at {0}")]
    Unsupported(usize, u8),
    /// An item that isn't there, or a position past the length.
    #[error("no item at {0}")]
    NoItem(usize),
    /// A row of another kind than declared.
    #[error("a row of another class at {0}")]
    WrongClass(usize),
    #[error("out of memory")]
    Memory,
}
