use lists::{Seq, Text};
use schema_model::{Home, RefNum, ScalarKind, TypeNum, Value};

/// The place of the holder that an operation is about.
#[derive(Debug, Drop)]
pub enum OpKey {
    /// A field of an instance, by its index.
    Field(u8),
    /// An item of a collection, by its item number or position.
    Item(u32),
    /// A new item of a map, with its number and key.
    Named(u32, Text),
}

/// The value that an operation carries.
#[derive(Debug, Drop)]
pub enum OpValue {
    Scalar(ScalarKind, Value),
    /// An instance, with its class where the operation has a type mark.
    Struct(RefNum, Option<TypeNum>),
    /// A collection.
    Coll(RefNum),
}

/// One operation on the present holder.
#[derive(Debug, Drop)]
pub enum Op {
    Add(OpKey, OpValue),
    Replace(OpKey, OpValue),
    DeleteAdd(OpKey, OpValue),
    Delete(OpKey),
    /// Takes all items of a collection away.
    Clear,
    /// Puts an instance at the end of an array, where it isn't there yet.
    AddByRef(OpValue),
    /// Takes an instance out of an array.
    DeleteByRef(RefNum),
}

pub type Ops = Seq<Op>;

/// The operations on one holder.
#[derive(Debug, Drop)]
pub struct Block {
    pub holder: RefNum,
    pub ops: Ops,
}

pub type Blocks = Seq<Block>;

/// What a row is: an instance of a class, or a collection of a home.
#[derive(Clone, Copy, Debug, PartialEq, Eq)]
pub enum RowKind {
    Struct(TypeNum),
    Coll(Home),
}

/// A step of state bytes: another holder, or an operation on the present one.
#[derive(Debug, Drop)]
pub enum Step {
    Turn(RefNum),
    Do(Op),
}
