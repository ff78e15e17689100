//! The commands that read a text, `replay` and `view`.
ghost use Rattle.std.specs.Prelude.{◌≡◌, ◌≤◌, ◌+◌, ◌^◌, ℕ, List, length};
ghost use Rattle.outside.specs.Faults.{Rose};
ghost use Rattle.outside.specs.Reads.{Reads};
ghost use Rattle.room_server.specs.Answers.{answer_to, part_word};
ghost use Rattle.room_server.specs.Endings.{EndsAs, ReadEnds, ended_as};
ghost use Rattle.room_server.specs.declared.ending.Ending.TheVariants as ending;

use crate::ending::Ending;
use crate::output::{WriteFault, write_refusal};
use crate::replay::replay_text;
use crate::task::Task;
use crate::view::view_text;
use outside::{LIMIT, ReadFault, Sink, Source, read_text};
use std::alloc::Global;
use text_model::Word;

/// Reads a text from the source, and writes what a command makes of it to the sink.
pub fn answer_source<S: Source, K: Sink>(
    alloc: Global,
    task: Task,
    source: &mut S,
    sink: &mut K,
) -> Ending
    ensures ends { ReadEnds task (S.left source.old) (S.left source.new) (K.taken sink.old) (K.taken sink.new) result }
    ensures prefix { (bytes : List ℕ) × (length bytes ≤ 2 ^ 24 + 1) × Reads (S.left source.old) (S.left source.new) bytes }
    ensures read_later { S.faults source.old ≤ S.faults source.new }
    ensures read_cause { result ≡ ending.ReadFailed → Rose (S.faults source.old) (S.faults source.new) }
    ensures read_quiet { (result ≡ ending.ReadFailed → ⊥) → S.faults source.new ≡ S.faults source.old }
    ensures write_later { K.faults sink.old ≤ K.faults sink.new }
    ensures write_cause { result ≡ ending.WriteFailed → Rose (K.faults sink.old) (K.faults sink.new) }
    ensures write_quiet { (result ≡ ending.WriteFailed → ⊥) → K.faults sink.new ≡ K.faults sink.old }
{
    match read_text(alloc, source) {
        Ok(text) => answer_text(alloc, task, &text, sink),
        Err(ReadFault::Failed) => Ending::ReadFailed,
        Err(ReadFault::Memory) => Ending::Memory,
    }
}

/// Writes what a command makes of a text.
fn answer_text<K: Sink>(alloc: Global, task: Task, text: &[u8], sink: &mut K) -> Ending
    ensures ends { EndsAs (answer_to task text.now) (K.taken sink.old) (K.taken sink.new) result }
    ensures later { K.faults sink.old ≤ K.faults sink.new }
    ensures cause { result ≡ ending.WriteFailed → Rose (K.faults sink.old) (K.faults sink.new) }
    ensures quiet { (result ≡ ending.WriteFailed → ⊥) → K.faults sink.new ≡ K.faults sink.old }
{
    if text.len() > LIMIT {
        return ended(write_refusal(alloc, sink, 0, "long"), Ending::Refused);
    }
    match task {
        Task::View { conn } => view_text(alloc, conn, text, sink),
        Task::Replay | Task::Serve { .. } | Task::Make { .. } => replay_text(alloc, text, sink),
    }
}

/// How a command ends that was to end so where all was written.
pub fn ended(outcome: Result<(), WriteFault>, whole: Ending) -> Ending
    ensures { result ≡ ended_as outcome whole }
{
    match outcome {
        Ok(()) => whole,
        Err(WriteFault::Failed) => Ending::WriteFailed,
        Err(WriteFault::Memory) => Ending::Memory,
    }
}

/// The word of the part in which a line can't stand.
pub fn part_word(part: Word) -> &'static str
    ensures { result.now ≡ part_word part }
{
    match part {
        Word::Schema => "schema",
        Word::Process => "process",
        Word::Room => "room",
        Word::Event => "event",
        Word::End => "end",
        Word::Output => "output",
        Word::Image => "image",
    }
}
