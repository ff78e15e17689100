//! The row that a command changes, and what it puts there.
ghost use Rattle.std.specs.Prelude.{◌≡◌, option_copied};
ghost use Rattle.state_model.specs.Commands.{holder_of, value_put};

use schema_model::{RefNum, Value};
use state_model::Command;

/// The row that a command changes.
pub fn holder_of(command: &Command) -> Option<RefNum>
    ensures { result ≡ holder_of command.now }
{
    match command {
        Command::Make(_) | Command::MakeFor(_) => None,
        Command::Put(holder, ..)
        | Command::Unset(holder, _)
        | Command::PutKey(holder, ..)
        | Command::DelKey(holder, _)
        | Command::Push(holder, _)
        | Command::SetAt(holder, ..)
        | Command::DelAt(holder, _)
        | Command::Add(holder, _)
        | Command::Del(holder, _)
        | Command::Clear(holder) => Some(*holder),
    }
}

/// The value that a command puts somewhere.
pub fn value_put(command: &Command) -> Option<&Value>
    ensures { option_copied result ≡ value_put command.now }
{
    match command {
        Command::Put(_, _, value)
        | Command::PutKey(_, _, value)
        | Command::Push(_, value)
        | Command::SetAt(_, _, value)
        | Command::Add(_, value) => Some(value),
        _ => None,
    }
}
