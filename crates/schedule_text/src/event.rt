//! Events of lines.
ghost use Rattle.std.specs.Prelude.{◌≡◌, None, codes, if◌then◌else◌};
ghost use Rattle.text_model.specs.Lines.{is_word};
ghost use Rattle.text_model.specs.Events.{acted_of, asked_of, event_of, event_of_line, frame_of, number_of_word, opening_of_words, plainly_of, short_of};
ghost use Rattle.schedule_text.specs.Reads.{Reads};
ghost use Rattle.text_words.specs.Words.{bytes_of};

use crate::act::read_act;
use crate::fault::LineFault;
use crate::hex::read_hex;
use crate::number::read_number;
use crate::words::{read_name, read_plain, read_plain_text};
use hub_model::HubEvent;
use schema_model::{ConnNum, Id};
use std::alloc::Global;
use text_words::{first_words, is_word};

/// A connection's number.
pub fn read_conn(word: &[u8]) -> Result<ConnNum, LineFault>
    ensures { Reads result (number_of_word word.now) }
{
    Ok(ConnNum(read_number(word)?))
}

/// The event of a word with one behind it.
fn read_short(word: &[u8], a: &[u8]) -> Result<HubEvent, LineFault>
    ensures { Reads result (short_of word.now a.now) }
{
    if is_word(word, "at") {
        return Ok(HubEvent::At(read_number(a)?));
    }
    if is_word(word, "bad") {
        return Ok(HubEvent::Bad {
            conn: read_conn(a)?,
        });
    }
    if is_word(word, "drop") {
        return Ok(HubEvent::Lost {
            conn: read_conn(a)?,
        });
    }
    if is_word(word, "tick") {
        return Ok(HubEvent::Tick {
            room: read_name(a)?,
        });
    }
    Err(LineFault::NotOfForm)
}

/// A frame of a connection.
fn read_frame(alloc: Global, word: &[u8], conn: &[u8], bytes: &[u8]) -> Result<HubEvent, LineFault>
    ensures { Reads result (if is_word (codes "frame") word.now then frame_of conn.now bytes.now else None) }
{
    if !is_word(word, "frame") {
        return Err(LineFault::NotOfForm);
    }
    Ok(HubEvent::Frame {
        conn: read_conn(conn)?,
        bytes: read_hex(alloc, bytes)?,
    })
}

/// An opening of a connection.
fn read_opening(
    alloc: Global,
    word: &[u8],
    conn: &[u8],
    target: &[u8],
    fresh: &[u8],
) -> Result<HubEvent, LineFault>
    ensures { Reads result (if is_word (codes "open") word.now then opening_of_words conn.now target.now fresh.now else None) }
{
    if !is_word(word, "open") {
        return Err(LineFault::NotOfForm);
    }
    Ok(HubEvent::Opening {
        conn: read_conn(conn)?,
        target: read_plain_text(alloc, target)?,
        fresh: read_name(fresh)?,
    })
}

/// A request of a connection.
fn read_ask(
    alloc: Global,
    word: &[u8],
    conn: &[u8],
    target: &[u8],
    body: &[u8],
    room: &[u8],
    session: &[u8],
) -> Result<HubEvent, LineFault>
    ensures { Reads result (if is_word (codes "ask") word.now then asked_of conn.now target.now body.now room.now session.now else None) }
{
    if !is_word(word, "ask") {
        return Err(LineFault::NotOfForm);
    }
    Ok(HubEvent::Ask {
        conn: read_conn(conn)?,
        target: read_plain_text(alloc, target)?,
        body: read_plain(alloc, body)?,
        room: read_name(room)?,
        session: read_name(session)?,
    })
}

/// An act of a room.
fn read_acted(alloc: Global, room: &[u8], words: &[&[u8]]) -> Result<HubEvent, LineFault>
    ensures { Reads result (acted_of room.now (bytes_of words.now)) }
{
    Ok(HubEvent::Act {
        room: read_name(room)?,
        act: read_act(alloc, words)?,
    })
}

/// The event of a word that isn't `act`.
#[tactic(auto, using(crate::proofs::Forms::plainly_other))]
fn read_plainly(alloc: Global, word: &[u8], words: &[&[u8]]) -> Result<HubEvent, LineFault>
    ensures { Reads result (plainly_of word.now (bytes_of words.now)) }
{
    if let [a] = words {
        return read_short(word, a);
    }
    if let [a, b] = words {
        return read_frame(alloc, word, a, b);
    }
    if let [a, b, c] = words {
        return read_opening(alloc, word, a, b, c);
    }
    if let [a, b, c, d, e] = words {
        return read_ask(alloc, word, a, b, c, d, e);
    }
    Err(LineFault::NotOfForm)
}

/// The event of words.
fn read_words(alloc: Global, words: &[&[u8]]) -> Result<HubEvent, LineFault>
    ensures { Reads result (event_of (bytes_of words.now)) }
{
    match words {
        [word, room, rest @ ..] if is_word(word, "act") => read_acted(alloc, room, rest),
        [word, rest @ ..] => read_plainly(alloc, word, rest),
        [] => Err(LineFault::NotOfForm),
    }
}

/// How many words of a line are looked at: a form has six at most, so a seventh tells that a line is of none.
const MOST_WORDS: usize = 7;

/// The event of a line, which stands there without its LF. `NotOfForm` exactly where no event has that line.
pub fn read_event(alloc: Global, line: &[u8]) -> Result<HubEvent, LineFault>
    ensures { Reads result (event_of_line line.now) }
{
    let words = first_words(alloc, line, MOST_WORDS)?;
    read_words(alloc, &words)
}
