//! The commands, by the words behind the program's name.
ghost use Rattle.std.specs.Prelude.{◌≡◌, IfSome};
ghost use Rattle.std.specs.Option.{option_map};
ghost use Rattle.text_model.specs.Events.{number_of_word};
ghost use Rattle.text_model.specs.Lines.{both};
ghost use Rattle.room_server.specs.Words.{IsWithin, rounds_of, task_of};
ghost use Rattle.room_server.specs.declared.task.Task.TheVariants as task;

use load_maker::MOST_ROUNDS;
use room_model::Words;
use text_words::{read_below, read_decimal};

/// What the program is to do.
#[derive(Clone, Copy, Debug, PartialEq, Eq)]
pub enum Task {
    /// Runs a schedule and writes what it gives.
    Replay,
    /// Serves rooms over a port of the machine itself, for so many happenings.
    Serve { port: u16, count: u32 },
    /// Writes the rows that the client of a connection has at the end of a replay.
    View { conn: u64 },
    /// Runs a made schedule of so many rounds and writes its summary.
    Make { seed: u64, rounds: u32 },
}

/// The command of the words, or `None` where they are no command's. `serve` isn't built yet, so its words are none's.
pub fn read_words(words: &Words) -> Option<Task>
    ensures task { result ≡ task_of words.now }
    ensures within { IfSome result IsWithin }
{
    match words.as_slice() {
        [word] if word.as_str() == "replay" => Some(Task::Replay),
        [word, conn] if word.as_str() == "view" => read_view(conn.as_slice()),
        [word, seed, rounds] if word.as_str() == "make" => {
            read_make(seed.as_slice(), rounds.as_slice())
        }
        _ => None,
    }
}

// `view`, by the word behind it.
fn read_view(conn: &[u8]) -> Option<Task>
    ensures { result ≡ option_map task.View (number_of_word conn.now) }
{
    let conn = read_decimal(conn)?;
    Some(Task::View { conn })
}

// `make`, by the words behind it.
fn read_make(seed: &[u8], rounds: &[u8]) -> Option<Task>
    ensures task { result ≡ both task.Make (number_of_word seed.now) (rounds_of rounds.now) }
    ensures within { IfSome result IsWithin }
{
    let seed = read_decimal(seed)?;
    let rounds = read_below(rounds, u64::from(MOST_ROUNDS) + 1)? as u32;
    Some(Task::Make { seed, rounds })
}
