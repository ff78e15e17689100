//! What the types of a command's parts say of its texts.
ghost use Rattle.std.specs.Prelude.{◌≡◌, true};
ghost use Rattle.state_model.specs.Worded.{is_worded_command};

use crate::Command;
use schema_model::{know_text, know_value};

/// The texts that a command puts are UTF-8. It does nothing else than to say so.
pub fn know_texts(command: &Command)
    ensures { is_worded_command command.now ≡ true }
{
    match command {
        Command::Put(_, _, value)
        | Command::Push(_, value)
        | Command::SetAt(_, _, value)
        | Command::Add(_, value) => know_value(value),
        Command::PutKey(_, key, value) => {
            know_text(key);
            know_value(value);
        }
        _ => {}
    }
}
