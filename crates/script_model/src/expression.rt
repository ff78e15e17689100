use crate::operand::Operand;
use schema_model::{Home, TypeNum};

/// What is worked out of two values.
#[derive(Clone, Copy, Debug, PartialEq, Eq)]
pub enum Operator {
    Plus,
    Minus,
    Times,
    Less,
    Equal,
}

/// What a variable is set to.
#[derive(Debug, Drop)]
pub enum Expression {
    Operand(Operand),
    /// A new instance of a class.
    Make(TypeNum),
    /// A new collection for a field.
    MakeFor(Home),
    /// What a row or a payload holds under a name, a key or a position.
    Get(Operand, Operand),
    /// How many items a collection or a payload has.
    Size(Operand),
    Compute(Operator, Operand, Operand),
    /// What is stored under a key of the presence.
    Stored(Operand),
    /// A stored number, raised.
    Raised(Operand, Operand),
    /// How many texts a stored set has.
    Members(Operand),
}
