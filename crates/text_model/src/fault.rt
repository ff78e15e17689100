use thiserror::Error;

/// Why a text is no schema's. Each carries the number of a line, counted from 1.
#[derive(Clone, Copy, Debug, PartialEq, Eq, Error)]
pub enum SchemaFault {
    /// The line isn't of any form.
    #[error("line {0}: no line of a schema")]
    UnknownWord(u32),
    /// A class that is declared nowhere.
    #[error("line {0}: no such class")]
    UnknownClass(u32),
    #[error("line {0}: a class of this name is declared already")]
    TwiceClass(u32),
    #[error("line {0}: the class has a field of this name already")]
    TwiceField(u32),
    /// The class's 64th field.
    #[error("line {0}: too many fields")]
    TooManyFields(u32),
    /// The 257th class.
    #[error("line {0}: too many classes")]
    TooManyClasses(u32),
    /// A tag outside 0 to 255.
    #[error("line {0}: a tag out of range")]
    BadTag(u32),
    #[error("line {0}: no root")]
    NoRoot(u32),
    /// A floating kind.
    #[error("line {0}: a floating kind")]
    FractionalKind(u32),
    /// The parent isn't declared in an earlier line.
    #[error("line {0}: no earlier class of the parent's name")]
    ParentLater(u32),
    #[error("out of memory")]
    Memory,
}
