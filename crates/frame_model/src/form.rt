//! What the first byte of a MessagePack value tells of it.

/// How many bytes a number takes. The highest comes first.
#[derive(Clone, Copy, Debug, PartialEq, Eq)]
pub enum Size {
    One,
    Two,
    Four,
    Eight,
}

/// How the length of a text, of bytes, of a list or of a map is told.
#[derive(Clone, Copy, Debug, PartialEq, Eq)]
pub enum Length {
    /// By the first byte itself.
    Told(u8),
    /// By a number behind it.
    Behind(Size),
}

/// What the first byte of a value tells of it. After MessagePack; that floating numbers and extensions are refused is
/// ours.
#[derive(Clone, Copy, Debug, PartialEq, Eq)]
pub enum Form {
    Nil,
    Truth(bool),
    /// A whole number, which the byte itself tells.
    Small(i8),
    Unsigned(Size),
    Signed(Size),
    Text(Length),
    Binary(Length),
    List(Length),
    Map(Length),
    Float,
    Extension,
    /// The byte that begins no value.
    Reserved,
}
