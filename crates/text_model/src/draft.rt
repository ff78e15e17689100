//! What was read of a schema's text so far.
use lists::{Seq, Text};
use schema_model::{Tag, TypeNum};

/// How many items a field may have: one, or those of a map, an array or a set.
#[derive(Clone, Copy, Debug, PartialEq, Eq)]
pub enum Grouping {
    Alone,
    Mapped,
    Listed,
    Gathered,
}

/// A field, with the word of its item, and the number of its line.
#[derive(Debug, Drop)]
pub struct DraftField {
    pub name: Text,
    pub grouping: Grouping,
    pub word: Text,
    pub tag: Option<Tag>,
    pub line: u32,
}

/// A class with the fields that it declares.
#[derive(Debug, Drop)]
pub struct DraftClass {
    pub name: Text,
    pub parent: Option<TypeNum>,
    pub own: Seq<DraftField>,
}

/// The name of the root's class, and the number of its line.
#[derive(Debug, Drop)]
pub struct DraftRoot {
    pub name: Text,
    pub line: u32,
}
