//! The lines of outputs and of what ends a text.
ghost use Rattle.std.specs.Prelude.{◌≡◌, ◌++◌, [], ◌∷◌, OnOk, OnErr, codes};
ghost use Rattle.std.specs.Fmt.{decimal};
ghost use Rattle.text_model.specs.Marks.{hex_word, line};
ghost use Rattle.text_model.specs.Outputs.{fault_word, kind_word, out_line, refusal_word};
ghost use Rattle.schedule_text.specs.Words.{word_text};

use crate::word::Word::{Hex, Number, Plain};
use crate::word::{Word, append_line};
use crate::write::kind_word;
use frame_model::MsgKind;
use hub_model::HubOut;
use lists::{Bytes, Memory};
use room_model::Refusal;
use schema_model::{ConnNum, Id};
use state_model::TableFault;

/// Appends the line `end`. An `Err` leaves `out` as it was.
pub fn print_end(out: &mut Vec<u8>) -> Result<(), Memory>
    ensures ok { OnOk result (out.new.items ≡ out.old.items ++ line (codes "end" ∷ [])) }
    ensures err { OnErr result (out.new.items ≡ out.old.items) }
{
    append_line(out, &[Plain(b"end")])
}

/// Appends the line that names a fault of a text: the number of the line where it stands, and its
/// word. An `Err` leaves `out` as it was.
pub fn print_fault(out: &mut Vec<u8>, number: u32, word: &str) -> Result<(), Memory>
    ensures ok { OnOk result
        (out.new.items ≡ out.old.items ++ line (codes "line" ∷ decimal number ∷ word.now ∷ [])) }
    ensures err { OnErr result (out.new.items ≡ out.old.items) }
{
    append_line(
        out,
        &[
            Plain(b"line"),
            Number(u64::from(number)),
            Plain(word.as_bytes()),
        ],
    )
}

/// The word of a refused command.
fn fault_text(fault: TableFault) -> &'static str
    ensures { result.now ≡ fault_word fault }
{
    match fault {
        TableFault::NoRef => "no-ref",
        TableFault::NoField => "no-field",
        TableFault::NoItem => "no-item",
        TableFault::WrongType => "wrong-type",
        TableFault::OutOfRange => "out-of-range",
        TableFault::Cycle => "cycle",
        TableFault::Duplicate => "duplicate",
        TableFault::InstancesFull => "instances-full",
        TableFault::PlacesFull => "places-full",
        TableFault::TextFull => "text-full",
        TableFault::TextTooLong => "text-too-long",
        TableFault::RefsSpent => "refs-spent",
        TableFault::NumbersSpent => "numbers-spent",
        TableFault::Present => "present",
        TableFault::Memory => "memory",
    }
}

/// The word of a refusal.
pub fn refusal_text(refusal: Refusal) -> &'static str
    ensures { result.now ≡ refusal_word refusal }
{
    match refusal {
        Refusal::NoRoom => "no-room",
        Refusal::NoConn => "no-conn",
        Refusal::ConnInUse => "conn-in-use",
        Refusal::NoSession => "no-session",
        Refusal::NotHere => "not-here",
        Refusal::QueueFull => "queue-full",
        Refusal::ViewFull => "view-full",
        Refusal::Table(fault) => fault_text(fault),
    }
}

/// Appends a line of three words, about a connection. An `Err` leaves `out` as it was.
fn append_conn<'a>(
    out: &mut Vec<u8>,
    what: &'a [u8],
    conn: ConnNum,
    word: Word<'a>,
) -> Result<(), Memory>
    ensures ok { OnOk result
        (out.new.items ≡ out.old.items ++ line (what.now ∷ decimal conn ∷ word_text word.entry ∷ [])) }
    ensures err { OnErr result (out.new.items ≡ out.old.items) }
{
    append_line(out, &[Plain(what), Number(conn.0), word])
}

/// Appends a line of three words, about a room. An `Err` leaves `out` as it was.
fn append_room<'a>(
    out: &mut Vec<u8>,
    what: &'a [u8],
    room: &'a Id,
    word: Word<'a>,
) -> Result<(), Memory>
    ensures ok { OnOk result
        (out.new.items ≡ out.old.items ++ line (what.now ∷ room.now ∷ word_text word.entry ∷ [])) }
    ensures err { OnErr result (out.new.items ≡ out.old.items) }
{
    append_line(out, &[Plain(what), Plain(&room.0), word])
}

/// Appends a line about a message to a room. An `Err` leaves `out` as it was.
fn append_message(
    out: &mut Vec<u8>,
    what: &[u8],
    room: &Id,
    session: &Id,
    kind: &MsgKind,
    payload: &Bytes,
) -> Result<(), Memory>
    ensures ok { OnOk result
        (out.new.items
        ≡ out.old.items
        ++ line
        (what.now ∷ room.now ∷ session.now ∷ kind_word kind.now ∷ hex_word payload.now ∷ [])) }
    ensures err { OnErr result (out.new.items ≡ out.old.items) }
{
    let words = [
        Plain(what),
        Plain(&room.0),
        Plain(&session.0),
        kind_word(kind),
        Hex(payload.as_slice()),
    ];
    append_line(out, &words)
}

/// Appends the line of an output. An `Err` leaves `out` as it was.
pub fn print_out(out: &mut Vec<u8>, one: &HubOut) -> Result<(), Memory>
    ensures ok { OnOk result (out.new.items ≡ out.old.items ++ out_line one.now) }
    ensures err { OnErr result (out.new.items ≡ out.old.items) }
{
    match one {
        HubOut::Send(conn, bytes) => append_conn(out, b"send", *conn, Hex(bytes.as_slice())),
        HubOut::Close(conn, code) => append_conn(out, b"close", *conn, Number(u64::from(*code))),
        HubOut::Reply(conn, json) => append_conn(out, b"reply", *conn, Plain(json.as_slice())),
        HubOut::Created(room, name) => append_room(out, b"created", room, Plain(name.as_slice())),
        HubOut::Joined(room, session) => append_room(out, b"joined", room, Plain(&session.0)),
        HubOut::Returned(room, session) => append_room(out, b"returned", room, Plain(&session.0)),
        HubOut::Message(room, session, kind, payload) => {
            append_message(out, b"message", room, session, kind, payload)
        }
        HubOut::RawMessage(room, session, kind, payload) => {
            append_message(out, b"rawmessage", room, session, kind, payload)
        }
        HubOut::Dropped(room, session) => append_room(out, b"dropped", room, Plain(&session.0)),
        HubOut::Left(room, session) => append_room(out, b"left", room, Plain(&session.0)),
        HubOut::Disposed(room) => append_line(out, &[Plain(b"disposed"), Plain(&room.0)]),
        HubOut::Made(room, number) => {
            append_room(out, b"made", room, Number(u64::from(number.0)))
        }
        HubOut::Refused(refusal) => {
            let word = refusal_text(*refusal).as_bytes();
            append_line(out, &[Plain(b"refused"), Plain(word)])
        }
    }
}
