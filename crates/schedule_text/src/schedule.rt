//! Schedules of texts.
ghost use Rattle.std.specs.Prelude.{◌≡◌, ◌+◌, ◌<◌, ◌-◌, ◌^◌, length, [], IfOk};
ghost use Rattle.text_model.specs.declared.schedule.Schedule.{Schedule as ScheduleOf};
ghost use Rattle.text_model.specs.DefLines.{next_def};
ghost use Rattle.text_model.specs.Lines.{behind_lines, lines_in, words_of};
ghost use Rattle.text_model.specs.Schedules.{at_end, breaks_off, events_from, first_word, heading_from, is_opened, process_of, read_schedule_text, room_word, rooms_from, IsScheduleText};
ghost use Rattle.schedule_text.specs.Tells.{IsAnswer, Tells, fault_at, line_fault, parts_of};
ghost use Rattle.schedule_text.specs.Reads.{Reads};
ghost use Rattle.text_words.specs.Words.{bytes_of};

use crate::def::next_def;
use crate::event::read_event;
use crate::fault::LineFault;
use crate::part::read_schema_part;
use crate::words::read_name;
use hub_model::Events;
use lists::Seq;
use room_model::{Defs, RoomDef};
use schema_model::{Id, Schema};
use std::alloc::Global;
use text_model::{Schedule, ScheduleFault, Word};
use text_words::{cut_word, first_words, is_word, next_line};

/// The fault of a line: it isn't of its form, or memory ran out.
pub fn fault_of(fault: LineFault, number: u32, word: Word) -> ScheduleFault
    ensures { result ≡ fault_at fault number word }
{
    match fault {
        LineFault::NotOfForm => ScheduleFault::Line(number, word),
        LineFault::Memory => ScheduleFault::Memory,
    }
}

/// The fault of a text that ends before its line `end`: there is no line of this number, or a piece that no LF ends.
pub fn breaks_off(number: u32, word: Word, rest: &[u8]) -> ScheduleFault
    ensures { result ≡ line_fault (breaks_off number word rest.now) }
{
    if rest.is_empty() {
        ScheduleFault::Line(number, Word::End)
    } else {
        ScheduleFault::Line(number, word)
    }
}

/// A value, where nothing stands behind the line `end`.
pub fn at_end<T: Drop>(number: u32, rest: &[u8], value: T) -> Result<T, ScheduleFault>
    ensures { Tells result (at_end number (lines_in rest.now) (behind_lines rest.now) value) }
{
    if next_line(rest).is_none() && rest.is_empty() {
        Ok(value)
    } else {
        Err(ScheduleFault::Line(number, Word::End))
    }
}

/// Events from a line of a number on, up to `end`.
fn read_events(alloc: Global, first: u32, text: &[u8]) -> Result<Events, ScheduleFault>
    requires { first + length text.now < 2 ^ 32 }
    ensures { Tells result (events_from first (lines_in text.now) (behind_lines text.now)) }
{
    let mut events = Seq::new(alloc);
    let mut number = first;
    let mut rest = text;
    while let Some((line, behind)) = next_line(rest) {
        if is_word(line, "end") {
            return at_end(number + 1, behind, events);
        }
        let event = match read_event(alloc, line) {
            Ok(event) => event,
            Err(fault) => return Err(fault_of(fault, number, Word::Event)),
        };
        events.push(event)?;
        number += 1;
        rest = behind;
    }
    Err(breaks_off(number, Word::Event, rest))
}

/// The word of a line that is no definition: before the first one it is that of rooms, and so it is where it begins as one.
fn room_word(defs: &Defs, line: &[u8]) -> Word
    ensures { result ≡ room_word defs.now line.now }
{
    if defs.is_empty() || is_word(first_word(line), "room") {
        Word::Room
    } else {
        Word::Event
    }
}

/// The first word of a line.
fn first_word(line: &[u8]) -> &[u8]
    ensures { result.now ≡ first_word (words_of line.now) }
{
    match cut_word(line) {
        Some((word, _)) => word,
        None => line,
    }
}

/// How many words of a line are looked at: a definition has twelve at most, so a thirteenth tells that a line is none.
const MOST_WORDS: usize = 13;

/// The definition of a line, where it may stand behind others.
fn read_room(alloc: Global, defs: &Defs, line: &[u8]) -> Result<RoomDef, LineFault>
    ensures { Reads result (next_def defs.now (words_of line.now)) }
{
    let words = first_words(alloc, line, MOST_WORDS)?;
    next_def(alloc, defs, &words)
}

/// Whether a line is `events`, behind one definition or more.
fn is_opened(defs: &Defs, line: &[u8]) -> bool
    ensures { result ≡ is_opened defs.now line.now }
{
    !defs.is_empty() && is_word(line, "events")
}

/// Definitions from a line of a number on, up to `events`, and the events behind that.
fn read_rooms(alloc: Global, first: u32, text: &[u8]) -> Result<(Defs, Events), ScheduleFault>
    requires { first + length text.now < 2 ^ 32 }
    ensures { Tells (parts_of result) (rooms_from first [] (lines_in text.now) (behind_lines text.now)) }
{
    let mut defs = Seq::new(alloc);
    let mut number = first;
    let mut rest = text;
    while let Some((line, behind)) = next_line(rest) {
        if is_opened(&defs, line) {
            let events = read_events(alloc, number + 1, behind)?;
            return Ok((defs, events));
        }
        let def = match read_room(alloc, &defs, line) {
            Ok(def) => def,
            Err(fault) => return Err(fault_of(fault, number, room_word(&defs, line))),
        };
        defs.push(def)?;
        number += 1;
        rest = behind;
    }
    let word = room_word(&defs, rest);
    Err(breaks_off(number, word, rest))
}

/// How many words of the line of the process are looked at: it has two, so a third tells that a line is none.
const MOST_PROCESS: usize = 3;

/// The id of the process, by the words of its line.
fn process_in(words: &[&[u8]]) -> Result<Id, LineFault>
    ensures { Reads result (process_of (bytes_of words.now)) }
{
    let [word, id] = words else {
        return Err(LineFault::NotOfForm);
    };
    if !is_word(word, "process") {
        return Err(LineFault::NotOfForm);
    }
    read_name(id)
}

/// The id of the process, by its line.
fn read_process(alloc: Global, line: &[u8]) -> Result<Id, LineFault>
    ensures { Reads result (process_of (words_of line.now)) }
{
    let words = first_words(alloc, line, MOST_PROCESS)?;
    process_in(&words)
}

/// What stands behind the schema, from a line of a number on.
fn read_heading(
    alloc: Global,
    number: u32,
    schema: Schema,
    text: &[u8],
) -> Result<Schedule, ScheduleFault>
    requires { number + length text.now < 2 ^ 32 }
    ensures { Tells result (heading_from number schema (lines_in text.now) (behind_lines text.now)) }
{
    let Some((line, behind)) = next_line(text) else {
        return Err(breaks_off(number, Word::Process, text));
    };
    let process = match read_process(alloc, line) {
        Ok(process) => process,
        Err(fault) => return Err(fault_of(fault, number, Word::Process)),
    };
    let (defs, events) = read_rooms(alloc, number + 1, behind)?;
    Ok(Schedule {
        schema,
        process,
        defs,
        events,
    })
}

/// The schedule of a text, or the first line that can't stand where it stands, with the word of its part.
fn read_parts(alloc: Global, text: &[u8]) -> Result<Schedule, ScheduleFault>
    requires { length text.now < 2 ^ 32 - 1 }
    ensures { Tells result (read_schedule_text text.now) }
{
    let (schema, lines, behind) = read_schema_part(alloc, text)?;
    read_heading(alloc, lines + 1, schema, behind)
}

/// The schedule of a text, or the first line that can't stand where it stands, with the word of its part. A text has fewer
/// than 2^32 - 1 bytes.
pub fn read_schedule(alloc: Global, text: &[u8]) -> Result<Schedule, ScheduleFault>
    requires { length text.now < 2 ^ 32 - 1 }
    ensures exact { Tells result (read_schedule_text text.now) }
    // A schedule is answered only for its one text, and for this always, unless memory runs out.
    ensures found { IfOk result (λ schedule. IsScheduleText text.now schedule) }
    ensures only { (s : ScheduleOf) → IsScheduleText text.now s → IsAnswer s result }
{
    read_parts(alloc, text)
}
