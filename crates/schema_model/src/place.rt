use crate::number::{RefNum, Tag, TypeNum};

/// The field for which a collection is made: the class that declares it, and its index there.
#[derive(Clone, Copy, Debug, PartialEq, Eq)]
pub struct Home {
    pub class: TypeNum,
    pub field: u8,
}

/// Where in a row a place is.
#[derive(Clone, Copy, Debug, PartialEq, Eq)]
pub enum Key {
    /// A field of an instance, by its index.
    Field(u8),
    /// An item of a map or a set, by its item number.
    Item(u32),
    /// An item of an array, by its position.
    At(u32),
}

/// A place: where a row holds a value.
#[derive(Clone, Copy, Debug, PartialEq, Eq)]
pub struct Place {
    pub holder: RefNum,
    pub key: Key,
}

/// A member of a view: a row, and the tag under which it is shown.
#[derive(Clone, Copy, Debug, PartialEq, Eq)]
pub struct Pair {
    pub who: RefNum,
    pub tag: Tag,
}
