use crate::number::{Tag, TypeNum};
use crate::scalar::ScalarKind;
use lists::{Seq, Text};

/// What a place may hold, but for collections.
#[derive(Clone, Copy, Debug, PartialEq, Eq)]
pub enum Item {
    Scalar(ScalarKind),
    /// An instance of this class or of a descendant.
    Class(TypeNum),
}

/// What a field may hold.
#[derive(Clone, Copy, Debug, PartialEq, Eq)]
pub enum Shape {
    One(Item),
    Map(Item),
    Array(Item),
    Set(Item),
}

impl Shape {
    ghost use Rattle.std.specs.Prelude.{◌≡◌};
    ghost use Rattle.schema_model.specs.Classes.{item_of};

    /// What the places of this shape hold.
    pub fn item(self) -> Item
        ensures { result ≡ item_of self }
    {
        match self {
            Shape::One(item) | Shape::Map(item) | Shape::Array(item) | Shape::Set(item) => item,
        }
    }
}

/// A field as its class declares it.
#[derive(Debug, Drop)]
pub struct FieldDecl {
    pub name: Text,
    pub shape: Shape,
    /// The view tag; without one the field is shown to everybody.
    pub tag: Option<Tag>,
}

pub type Fields = Seq<FieldDecl>;

/// A class. Its fields are its parent's, and then its own.
#[derive(Debug, Drop)]
pub struct Class {
    pub name: Text,
    pub parent: Option<TypeNum>,
    pub own: Fields,
}

pub type Classes = Seq<Class>;
