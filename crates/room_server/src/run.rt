//! The one call of the program.
ghost use Rattle.std.specs.Prelude.{◌≡◌, ◌⊎◌, ◌≤◌, ◌+◌, ◌^◌, ℕ, List, [], ◌∷◌, length, Contains, None, Some, IfSome};
ghost use Rattle.outside.specs.Faults.{Rose};
ghost use Rattle.outside.specs.Reads.{Reads};
ghost use Rattle.outside.specs.Streams.{Takes, TakesPrefix};
ghost use Rattle.text_model.specs.declared.schedule.Schedule.{Schedule};
ghost use Rattle.text_model.specs.Schedules.{IsScheduleText};
ghost use Rattle.room_server.specs.Answers.{answer_for};
ghost use Rattle.room_server.specs.Endings.{IsAnswered, IsDone, IsEnded, IsQuiet, IsRefused};
ghost use Rattle.room_server.specs.Promised.{KeepsTaken};
ghost use Rattle.room_server.specs.Words.{task_of, usage_line};
ghost use Rattle.room_server.specs.declared.ending.Ending.TheVariants as ending;
ghost use Rattle.room_server.specs.declared.task.Task.{Task};
ghost use Rattle.room_server.specs.declared.task.Task.TheVariants.{Make, Replay};

use crate::ending::Ending;
use crate::make::make;
use crate::output::write_usage;
use crate::reading::answer_source;
use crate::task::{Task, read_words};
use outside::{Clock, Failed, Ids, Sink, Source, Wire};
use room_model::Words;
use std::alloc::Global;

/// Does what the words behind the program's name call for, and answers the status of the process:
/// 0 all was read and written, 2 the words are no command's, 3 the text isn't of its form or a frame of it is refused, 4 the
/// source failed, 5 the sink failed, 7 out of memory.
pub fn run<S: Source, K: Sink, W: Wire, C: Clock, I: Ids>(
    alloc: Global,
    words: &Words,
    source: &mut S,
    sink: &mut K,
    wire: &mut W,
    clock: &mut C,
    ids: &mut I,
) -> u8
    ensures status { Contains (0 ∷ 2 ∷ 3 ∷ 4 ∷ 5 ∷ 7 ∷ []) result }

    // 0: for `replay`, the source was read to its end, its bytes are the text of a schedule, the sink took exactly what is
    // printed of it, and of its events, after every prefix of them: each live client's frames decode to exactly what it may
    // see, a client that takes all that it is sent refuses none of it and has what it may see, what a life is sent is what the
    // schema and its record are sent, and no room passes its places; and what the sink took is the text of a print, which
    // `view` takes where it isn't too long. For `view`, the bytes are what a replay prints, and the sink took exactly the rows
    // of the connection's client. For `make`, the sink took exactly the summary of the made schedule's run.
    ensures done { result ≡ 0 → IsDone (task_of words.now) (S.left source.old) (S.left source.new) (K.taken sink.old) (K.taken sink.new) }

    // 2: the words are no command's, and the sink took exactly the usage line.
    ensures usage { result ≡ 2 → (task_of words.now ≡ None) × Takes (K.taken sink.old) (K.taken sink.new) usage_line }

    // 3: the words are those of a command that reads a text, which is too long or has a fault, or one of its frames is
    // refused; and the sink took exactly the line of the first one.
    ensures refused { result ≡ 3 → IsRefused (task_of words.now) (S.left source.old) (S.left source.new) (K.taken sink.old) (K.taken sink.new) }

    // 4: the source's count of faults rose in this call, and the sink took nothing.
    ensures read_cause { result ≡ 4 → Rose (S.faults source.old) (S.faults source.new) × (K.taken sink.new ≡ K.taken sink.old) }

    // 5: the sink's count of faults rose in this call.
    ensures write_cause { result ≡ 5 → Rose (K.faults sink.old) (K.faults sink.new) }

    // Whatever the status is, the sink took a prefix of what the words and the text call for.
    ensures prefix { (text : List ℕ) × IfSome (S.left source.old) (λ all. all ≡ text)
        × TakesPrefix (K.taken sink.old) (K.taken sink.new) (answer_for (task_of words.now) text).output }

    // Whatever the status is, the same promises hold of the events whose outputs the sink took whole.
    ensures promises { task_of words.now ≡ Some Replay → IfSome (S.left source.old) (λ text. (s : Schedule) → IsScheduleText text s
        → KeepsTaken (K.taken sink.old) (K.taken sink.new) s) }

    // Where no count rose, words that are no command's get 2; and where memory didn't run out either, the words and the text
    // decide the status.
    ensures usage_always { task_of words.now ≡ None → (Rose (K.faults sink.old) (K.faults sink.new) → ⊥) → result ≡ 2 }
    ensures done_always { (task : Task) → task_of words.now ≡ Some task → IfSome (S.left source.old) (λ text. IsAnswered task text
        → IsQuiet (S.faults source.old) (S.faults source.new) (K.faults sink.old) (K.faults sink.new) → (result ≡ 0) ⊎ (result ≡ 7)) }
    ensures refused_always { (task : Task) → task_of words.now ≡ Some task → IfSome (S.left source.old) (λ text. (IsAnswered task text → ⊥)
        → IsQuiet (S.faults source.old) (S.faults source.new) (K.faults sink.old) (K.faults sink.new) → (result ≡ 3) ⊎ (result ≡ 7)) }
    ensures made_always { (seed rounds : ℕ) → task_of words.now ≡ Some (Make seed rounds) → (Rose (K.faults sink.old) (K.faults sink.new) → ⊥) → (result ≡ 0) ⊎ (result ≡ 7) }

    // Nothing is read for words that are no command's and for `make`, and of a text at most 16 MiB and one byte.
    ensures unread { task_of words.now ≡ None → source.new ≡ source.old }
    ensures unread_made { (seed rounds : ℕ) → task_of words.now ≡ Some (Make seed rounds) → source.new ≡ source.old }
    ensures bound { (bytes : List ℕ) × (length bytes ≤ 2 ^ 24 + 1) × Reads (S.left source.old) (S.left source.new) bytes }

    // No count of faults falls, and under any status but 4 no read failed and under any but 5 no write: the count is as it was.
    ensures read_later { S.faults source.old ≤ S.faults source.new }
    ensures read_quiet { (result ≡ 4 → ⊥) → S.faults source.new ≡ S.faults source.old }
    ensures write_later { K.faults sink.old ≤ K.faults sink.new }
    ensures write_quiet { (result ≡ 5 → ⊥) → K.faults sink.new ≡ K.faults sink.old }

    // The wire, the clock and the ids are as they were.
    ensures wire { wire.new ≡ wire.old }
    ensures clock { clock.new ≡ clock.old }
    ensures ids { ids.new ≡ ids.old }
{
    answer(alloc, words, source, sink).status()
}

/// Does what the words call for.
fn answer<S: Source, K: Sink>(alloc: Global, words: &Words, source: &mut S, sink: &mut K) -> Ending
    ensures ends { IsEnded (task_of words.now) (S.left source.old) (S.left source.new) (K.taken sink.old) (K.taken sink.new) result }
    ensures usage { task_of words.now ≡ None → (result ≡ ending.Usage) ⊎ (result ≡ ending.WriteFailed) }
    ensures unread { task_of words.now ≡ None → source.new ≡ source.old }
    ensures unread_made { (seed rounds : ℕ) → task_of words.now ≡ Some (Make seed rounds) → source.new ≡ source.old }
    ensures bound { (bytes : List ℕ) × (length bytes ≤ 2 ^ 24 + 1) × Reads (S.left source.old) (S.left source.new) bytes }
    ensures read_later { S.faults source.old ≤ S.faults source.new }
    ensures read_cause { result ≡ ending.ReadFailed → Rose (S.faults source.old) (S.faults source.new) }
    ensures read_quiet { (result ≡ ending.ReadFailed → ⊥) → S.faults source.new ≡ S.faults source.old }
    ensures write_later { K.faults sink.old ≤ K.faults sink.new }
    ensures write_cause { result ≡ ending.WriteFailed → Rose (K.faults sink.old) (K.faults sink.new) }
    ensures write_quiet { (result ≡ ending.WriteFailed → ⊥) → K.faults sink.new ≡ K.faults sink.old }
{
    match read_words(words) {
        Some(Task::Make { seed, rounds }) => make(alloc, seed, rounds, sink),
        Some(task) => answer_source(alloc, task, source, sink),
        None => match write_usage(sink) {
            Ok(()) => Ending::Usage,
            Err(Failed) => Ending::WriteFailed,
        },
    }
}
