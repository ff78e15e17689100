ghost use Rattle.std.specs.Prelude.{◌≡◌, IfOk};

use lists::{Memory, Text};
use schema_model::{Home, RefNum, TypeNum, Value};
use std::alloc::Global;
use thiserror::Error;

/// A change of the state.
#[derive(Debug, Drop)]
pub enum Command {
    /// Makes an instance of a class, which nothing holds yet.
    Make(TypeNum),
    /// Makes a collection for a field, which nothing holds yet.
    MakeFor(Home),
    /// Sets a field.
    Put(RefNum, u8, Value),
    /// Takes a field away.
    Unset(RefNum, u8),
    /// Sets the item of a key of a map.
    PutKey(RefNum, Text, Value),
    /// Takes the item of a key of a map away.
    DelKey(RefNum, Text),
    /// Adds an item at the end of an array.
    Push(RefNum, Value),
    /// Sets the item at a position of an array.
    SetAt(RefNum, u32, Value),
    /// Takes the item at a position of an array away; the later ones close up.
    DelAt(RefNum, u32),
    /// Adds a value to a set.
    Add(RefNum, Value),
    /// Takes a value out of a set.
    Del(RefNum, Value),
    /// Takes all items of a collection away.
    Clear(RefNum),
}

impl Command {
    /// The same command again.
    pub fn copy(&self, alloc: Global) -> Result<Command, Memory>
        ensures { IfOk result (λ c. c ≡ self.now) }
    {
        Ok(match self {
            Command::Make(class) => Command::Make(*class),
            Command::MakeFor(home) => Command::MakeFor(*home),
            Command::Put(row, field, value) => Command::Put(*row, *field, value.copy(alloc)?),
            Command::Unset(row, field) => Command::Unset(*row, *field),
            Command::PutKey(row, key, value) => {
                Command::PutKey(*row, key.copy(alloc)?, value.copy(alloc)?)
            }
            Command::DelKey(row, key) => Command::DelKey(*row, key.copy(alloc)?),
            Command::Push(row, value) => Command::Push(*row, value.copy(alloc)?),
            Command::SetAt(row, at, value) => Command::SetAt(*row, *at, value.copy(alloc)?),
            Command::DelAt(row, at) => Command::DelAt(*row, *at),
            Command::Add(row, value) => Command::Add(*row, value.copy(alloc)?),
            Command::Del(row, value) => Command::Del(*row, value.copy(alloc)?),
            Command::Clear(row) => Command::Clear(*row),
        })
    }
}

/// Why a command was refused, in the order in which the causes are tested.
#[derive(Clone, Copy, Debug, PartialEq, Eq, Error)]
pub enum TableFault {
    #[error("no such reference")]
    NoRef,
    #[error("no such field")]
    NoField,
    #[error("no such item")]
    NoItem,
    #[error("a value of another type")]
    WrongType,
    #[error("a number out of range")]
    OutOfRange,
    #[error("the instance reaches its holder")]
    Cycle,
    #[error("the instance stands in the array already")]
    Duplicate,
    #[error("too many rows")]
    InstancesFull,
    #[error("too many places")]
    PlacesFull,
    #[error("too many bytes of text")]
    TextFull,
    #[error("a text is too long")]
    TextTooLong,
    #[error("the reference numbers are spent")]
    RefsSpent,
    #[error("the item numbers are spent")]
    NumbersSpent,
    #[error("the set holds the value")]
    Present,
    #[error("out of memory")]
    Memory,
}
