//! Outputs of lines.
ghost use Rattle.std.specs.Prelude.{◌≡◌, ◌==◌, Some, not};
ghost use Rattle.std.specs.List.{list_all};
ghost use Rattle.hub_model.specs.declared.event.HubOut.TheVariants.{Reply};
ghost use Rattle.text_model.specs.Decimals.{decimal_below};
ghost use Rattle.text_model.specs.Events.{number_of_word};
ghost use Rattle.text_model.specs.Lines.{both, passing, some_if, words_of};
ghost use Rattle.text_model.specs.Marks.{is_room_name};
ghost use Rattle.text_model.specs.OutLines.{is_one_line, long_out, middle_out, out_of, plain_out, refusal_of, short_out};
ghost use Rattle.schedule_text.specs.Reads.{Reads};
ghost use Rattle.schedule_text.specs.Tells.{replied};
ghost use Rattle.text_words.specs.Words.{bytes_of};

use crate::event::read_conn;
use crate::fault::LineFault;
use crate::hex::read_hex;
use crate::number::read_ref;
use crate::print::refusal_text;
use crate::words::{read_kind, read_name, text_of};
use hub_model::HubOut;
use lists::Text;
use room_model::Refusal;
use schema_model::RefNum;
use state_model::TableFault;
use std::alloc::Global;
use text_words::{cut_word, first_words, is_room_name, is_word, name_text, read_below};

/// The refusals that come out of a hub. Out of memory doesn't.
const REFUSALS: [Refusal; 21] = [
    Refusal::NoRoom,
    Refusal::NoConn,
    Refusal::ConnInUse,
    Refusal::NoSession,
    Refusal::NotHere,
    Refusal::QueueFull,
    Refusal::ViewFull,
    Refusal::Table(TableFault::NoRef),
    Refusal::Table(TableFault::NoField),
    Refusal::Table(TableFault::NoItem),
    Refusal::Table(TableFault::WrongType),
    Refusal::Table(TableFault::OutOfRange),
    Refusal::Table(TableFault::Cycle),
    Refusal::Table(TableFault::Duplicate),
    Refusal::Table(TableFault::InstancesFull),
    Refusal::Table(TableFault::PlacesFull),
    Refusal::Table(TableFault::TextFull),
    Refusal::Table(TableFault::TextTooLong),
    Refusal::Table(TableFault::RefsSpent),
    Refusal::Table(TableFault::NumbersSpent),
    Refusal::Table(TableFault::Present),
];

/// The refusal of a word.
fn read_refusal(word: &[u8]) -> Result<Refusal, LineFault>
    ensures { Reads result (refusal_of word.now) }
{
    for refusal in REFUSALS.iter() {
        if is_word(word, refusal_text(*refusal)) {
            return Ok(*refusal);
        }
    }
    Err(LineFault::NotOfForm)
}

/// The output of a word with one behind it.
fn read_short(word: &[u8], a: &[u8]) -> Result<HubOut, LineFault>
    ensures { Reads result (short_out word.now a.now) }
{
    if is_word(word, "disposed") {
        return Ok(HubOut::Disposed(read_name(a)?));
    }
    if is_word(word, "refused") {
        return Ok(HubOut::Refused(read_refusal(a)?));
    }
    Err(LineFault::NotOfForm)
}

/// The number of 16 bits of a word, as of a connection that is closed.
fn read_close(word: &[u8]) -> Result<u16, LineFault>
    ensures { Reads result (decimal_below 65536 word.now) }
{
    match read_below(word, 1 << 16) {
        Some(code) => Ok(code as u16),
        None => Err(LineFault::NotOfForm),
    }
}

/// The name of a room.
fn read_room_name(alloc: Global, word: &[u8]) -> Result<Text, LineFault>
    ensures { Reads result (some_if (is_room_name word.now) word.now) }
{
    if !is_room_name(word) {
        return Err(LineFault::NotOfForm);
    }
    Ok(name_text(alloc, word)?)
}

/// The output of a word with two behind it.
fn read_middle(alloc: Global, word: &[u8], a: &[u8], b: &[u8]) -> Result<HubOut, LineFault>
    ensures { Reads result (middle_out word.now a.now b.now) }
{
    if is_word(word, "send") {
        Ok(HubOut::Send(read_conn(a)?, read_hex(alloc, b)?))
    } else if is_word(word, "close") {
        Ok(HubOut::Close(read_conn(a)?, read_close(b)?))
    } else if is_word(word, "created") {
        Ok(HubOut::Created(read_name(a)?, read_room_name(alloc, b)?))
    } else if is_word(word, "joined") {
        Ok(HubOut::Joined(read_name(a)?, read_name(b)?))
    } else if is_word(word, "returned") {
        Ok(HubOut::Returned(read_name(a)?, read_name(b)?))
    } else if is_word(word, "dropped") {
        Ok(HubOut::Dropped(read_name(a)?, read_name(b)?))
    } else if is_word(word, "left") {
        Ok(HubOut::Left(read_name(a)?, read_name(b)?))
    } else if is_word(word, "made") {
        Ok(HubOut::Made(read_name(a)?, RefNum(read_ref(b)?)))
    } else {
        Err(LineFault::NotOfForm)
    }
}

/// The output of a word with four behind it: a message to a room.
fn read_long(
    alloc: Global,
    word: &[u8],
    room: &[u8],
    session: &[u8],
    kind: &[u8],
    payload: &[u8],
) -> Result<HubOut, LineFault>
    ensures { Reads result (long_out word.now room.now session.now kind.now payload.now) }
{
    let is_raw = is_word(word, "rawmessage");
    if !is_raw && !is_word(word, "message") {
        return Err(LineFault::NotOfForm);
    }
    let room = read_name(room)?;
    let session = read_name(session)?;
    let kind = read_kind(alloc, kind)?;
    let payload = read_hex(alloc, payload)?;
    if is_raw {
        Ok(HubOut::RawMessage(room, session, kind, payload))
    } else {
        Ok(HubOut::Message(room, session, kind, payload))
    }
}

/// The output of words, of which none is a reply's.
#[tactic(auto, using(crate::proofs::Forms::plain_out_other))]
fn read_plain(alloc: Global, word: &[u8], words: &[&[u8]]) -> Result<HubOut, LineFault>
    ensures { Reads result (plain_out word.now (bytes_of words.now)) }
{
    if let [a] = words {
        return read_short(word, a);
    }
    if let [a, b] = words {
        return read_middle(alloc, word, a, b);
    }
    if let [a, b, c, d] = words {
        return read_long(alloc, word, a, b, c, d);
    }
    Err(LineFault::NotOfForm)
}

/// Whether bytes have no LF.
fn is_one_line(bytes: &[u8]) -> bool
    ensures { result ≡ list_all (λ b. not (b == 10)) bytes.now }
{
    bytes.iter().all(|byte| *byte != b'\n')
}

/// A text of one line.
fn read_json(alloc: Global, bytes: &[u8]) -> Result<Text, LineFault>
    ensures { Reads result (passing is_one_line (Some bytes.now)) }
{
    if !is_one_line(bytes) {
        return Err(LineFault::NotOfForm);
    }
    text_of(alloc, bytes)
}

/// A reply to a connection.
fn reply_of(alloc: Global, conn: &[u8], json: &[u8]) -> Result<HubOut, LineFault>
    ensures { Reads result (both Reply (number_of_word conn.now) (passing is_one_line (Some json.now))) }
{
    Ok(HubOut::Reply(read_conn(conn)?, read_json(alloc, json)?))
}

/// A reply of what stands behind the first word of its line: the connection, and a text that may have spaces.
fn read_reply(alloc: Global, behind: &[u8]) -> Result<HubOut, LineFault>
    ensures { Reads result (replied (words_of behind.now)) }
{
    match cut_word(behind) {
        Some((conn, json)) => reply_of(alloc, conn, json),
        None => Err(LineFault::NotOfForm),
    }
}

/// How many words behind the first one of a line are looked at: a form has four at most, so a fifth tells that a line is of
/// none.
const MOST_WORDS: usize = 5;

/// The output of a line, which stands there without its LF.
pub fn read_out(alloc: Global, line: &[u8]) -> Result<HubOut, LineFault>
    ensures { Reads result (out_of (words_of line.now)) }
{
    let Some((word, behind)) = cut_word(line) else {
        return Err(LineFault::NotOfForm);
    };
    if is_word(word, "reply") {
        return read_reply(alloc, behind);
    }
    let words = first_words(alloc, behind, MOST_WORDS)?;
    read_plain(alloc, word, &words)
}
