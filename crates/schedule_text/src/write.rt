//! Writing values, events and definitions as their one text.
ghost use Rattle.std.specs.Prelude.{◌≡◌, ◌++◌, ◌∷◌, [], OnOk, OnErr, codes, map};
ghost use Rattle.std.specs.Fmt.{decimal};
ghost use Rattle.std.specs.Io.{StartsWith};
ghost use Rattle.text_model.specs.Acts.{act_words, command_words};
ghost use Rattle.text_model.specs.Decimals.{signed_text};
ghost use Rattle.text_model.specs.DefLines.{comma_joined, def_words};
ghost use Rattle.text_model.specs.Events.{event_line};
ghost use Rattle.text_model.specs.Marks.{hex_word, line, lines, quoted};
ghost use Rattle.text_model.specs.Outputs.{kind_word};
ghost use Rattle.text_model.specs.WordForms.{plain, value_word};
ghost use Rattle.schedule_text.specs.Words.{heading_text, word_text};

use crate::word::Word::{Escaped, Hex, Link, Number, Plain, Quoted, Signed, Whole};
use crate::word::{Word, append_line, append_one};
use frame_model::MsgKind;
use hub_model::HubEvent;
use lists::{Bytes, Memory, Text};
use room_model::{Act, Defs, Names, RoomDef};
use schema_model::{Id, Pair, Value};
use schema_reader::write_schema;
use state_model::Command;
use std::alloc::Global;
use text_model::Schedule;

/// The word of a value.
pub fn value_word(value: &Value) -> Word<'_>
    ensures { word_text result ≡ value_word value.now }
{
    match value {
        Value::Whole(number) => Whole(*number),
        Value::Str(text) => Quoted(text.as_slice()),
        Value::Truth(true) => Plain(b"true"),
        Value::Truth(false) => Plain(b"false"),
        Value::Link(row) => Link(row.0),
    }
}

/// The word of a message kind.
pub fn kind_word(kind: &MsgKind) -> Word<'_>
    ensures { word_text result ≡ kind_word kind.now }
{
    match kind {
        MsgKind::Name(name) => Quoted(name.as_slice()),
        MsgKind::Num(number) => Signed(*number),
    }
}

/// Appends the word of a value. An `Err` leaves `out` as it was.
pub fn write_value(out: &mut Vec<u8>, value: &Value) -> Result<(), Memory>
    ensures ok { OnOk result (out.new.items ≡ out.old.items ++ value_word value.now) }
    ensures err { OnErr result (out.new.items ≡ out.old.items) }
{
    append_one(out, value_word(value))
}

/// Appends the quoted word of a text. An `Err` leaves `out` as it was.
pub fn write_quoted(out: &mut Vec<u8>, text: &str) -> Result<(), Memory>
    ensures ok { OnOk result (out.new.items ≡ out.old.items ++ quoted text.now) }
    ensures err { OnErr result (out.new.items ≡ out.old.items) }
{
    append_one(out, Quoted(text.as_bytes()))
}

/// Appends the plain word of bytes. An `Err` leaves `out` as it was.
pub fn write_plain(out: &mut Vec<u8>, bytes: &[u8]) -> Result<(), Memory>
    ensures ok { OnOk result (out.new.items ≡ out.old.items ++ plain bytes.now) }
    ensures err { OnErr result (out.new.items ≡ out.old.items) }
{
    append_one(out, Escaped(bytes))
}

/// A number of up to 32 bits as a word.
fn number<'a>(number: u32) -> Word<'a>
    ensures { word_text result ≡ decimal number }
{
    Number(u64::from(number))
}

/// Appends the line of a command of a room. An `Err` leaves `out` as it was.
fn append_command<'a>(out: &mut Vec<u8>, room: &'a Id, command: &'a Command) -> Result<(), Memory>
    ensures ok { OnOk result (out.new.items ≡ out.old.items ++ line (codes "act" ∷ room.now ∷ command_words command.now)) }
    ensures err { OnErr result (out.new.items ≡ out.old.items) }
{
    let act = Plain(b"act");
    let room = Plain(&room.0);
    match command {
        Command::Make(class) => append_line(out, &[act, room, Plain(b"make"), number(class.0)]),
        Command::MakeFor(home) => append_line(
            out,
            &[
                act,
                room,
                Plain(b"makefor"),
                number(home.class.0),
                number(u32::from(home.field)),
            ],
        ),
        Command::Put(row, field, value) => append_line(
            out,
            &[
                act,
                room,
                Plain(b"put"),
                number(row.0),
                number(u32::from(*field)),
                value_word(value),
            ],
        ),
        Command::Unset(row, field) => append_line(
            out,
            &[
                act,
                room,
                Plain(b"unset"),
                number(row.0),
                number(u32::from(*field)),
            ],
        ),
        Command::PutKey(row, key, value) => append_line(
            out,
            &[
                act,
                room,
                Plain(b"putkey"),
                number(row.0),
                Quoted(key.as_slice()),
                value_word(value),
            ],
        ),
        Command::DelKey(row, key) => append_line(
            out,
            &[
                act,
                room,
                Plain(b"delkey"),
                number(row.0),
                Quoted(key.as_slice()),
            ],
        ),
        Command::Push(row, value) => append_line(
            out,
            &[act, room, Plain(b"push"), number(row.0), value_word(value)],
        ),
        Command::SetAt(row, at, value) => append_line(
            out,
            &[
                act,
                room,
                Plain(b"setat"),
                number(row.0),
                number(*at),
                value_word(value),
            ],
        ),
        Command::DelAt(row, at) => append_line(
            out,
            &[act, room, Plain(b"delat"), number(row.0), number(*at)],
        ),
        Command::Add(row, value) => append_line(
            out,
            &[act, room, Plain(b"add"), number(row.0), value_word(value)],
        ),
        Command::Del(row, value) => append_line(
            out,
            &[act, room, Plain(b"del"), number(row.0), value_word(value)],
        ),
        Command::Clear(row) => append_line(out, &[act, room, Plain(b"clear"), number(row.0)]),
    }
}

/// Appends the line of an edit of a session's view. An `Err` leaves `out` as it was.
fn append_view<'a>(
    out: &mut Vec<u8>,
    room: &'a Id,
    what: &'a [u8],
    session: &'a Id,
    pair: Pair,
) -> Result<(), Memory>
    ensures ok { OnOk result
        (out.new.items
        ≡ out.old.items
        ++ line
        (codes "act" ∷ room.now ∷ what.now ∷ session.now ∷ decimal pair.who ∷ signed_text pair.tag ∷ [])) }
    ensures err { OnErr result (out.new.items ≡ out.old.items) }
{
    let words = [
        Plain(b"act"),
        Plain(&room.0),
        Plain(what),
        Plain(&session.0),
        number(pair.who.0),
        Signed(i32::from(pair.tag.0)),
    ];
    append_line(out, &words)
}

/// Appends the line of a message to a session. An `Err` leaves `out` as it was.
fn append_message<'a>(
    out: &mut Vec<u8>,
    room: &'a Id,
    what: &'a [u8],
    session: &'a Id,
    kind: &'a MsgKind,
    payload: &'a Bytes,
) -> Result<(), Memory>
    ensures ok { OnOk result
        (out.new.items
        ≡ out.old.items
        ++ line
        (codes "act" ∷ room.now ∷ what.now ∷ session.now ∷ kind_word kind.now ∷ hex_word payload.now ∷ [])) }
    ensures err { OnErr result (out.new.items ≡ out.old.items) }
{
    let words = [
        Plain(b"act"),
        Plain(&room.0),
        Plain(what),
        Plain(&session.0),
        kind_word(kind),
        Hex(payload.as_slice()),
    ];
    append_line(out, &words)
}

/// Appends the line of an act of a room. An `Err` leaves `out` as it was.
fn append_act<'a>(out: &mut Vec<u8>, room: &'a Id, act: &'a Act) -> Result<(), Memory>
    ensures ok { OnOk result (out.new.items ≡ out.old.items ++ line (codes "act" ∷ room.now ∷ act_words act.now)) }
    ensures err { OnErr result (out.new.items ≡ out.old.items) }
{
    let word = Plain(b"act");
    let of = Plain(&room.0);
    match act {
        Act::State(command) => append_command(out, room, command),
        Act::ViewAdd(session, pair) => append_view(out, room, b"viewadd", session, *pair),
        Act::ViewDel(session, pair) => append_view(out, room, b"viewdel", session, *pair),
        Act::Send(session, kind, payload) => {
            append_message(out, room, b"send", session, kind, payload)
        }
        Act::Raw(session, kind, payload) => {
            append_message(out, room, b"raw", session, kind, payload)
        }
        Act::ToAll(kind, payload) => append_line(
            out,
            &[
                word,
                of,
                Plain(b"toall"),
                kind_word(kind),
                Hex(payload.as_slice()),
            ],
        ),
        Act::Kick(session, code) => append_line(
            out,
            &[
                word,
                of,
                Plain(b"kick"),
                Plain(&session.0),
                number(u32::from(*code)),
            ],
        ),
        Act::Lock => append_line(out, &[word, of, Plain(b"lock")]),
        Act::Unlock => append_line(out, &[word, of, Plain(b"unlock")]),
        Act::Keep(session, ms) => append_line(
            out,
            &[word, of, Plain(b"keep"), Plain(&session.0), Number(*ms)],
        ),
    }
}

/// Appends the line of an event. An `Err` leaves `out` as it was.
pub fn write_event(out: &mut Vec<u8>, event: &HubEvent) -> Result<(), Memory>
    ensures ok { OnOk result (out.new.items ≡ out.old.items ++ event_line event.now) }
    ensures err { OnErr result (out.new.items ≡ out.old.items) }
{
    match event {
        HubEvent::At(ms) => append_line(out, &[Plain(b"at"), Number(*ms)]),
        HubEvent::Ask {
            conn,
            target,
            body,
            room,
            session,
        } => {
            let words = [
                Plain(b"ask"),
                Number(conn.0),
                Escaped(target.as_slice()),
                Escaped(body.as_slice()),
                Plain(&room.0),
                Plain(&session.0),
            ];
            append_line(out, &words)
        }
        HubEvent::Bad { conn } => append_line(out, &[Plain(b"bad"), Number(conn.0)]),
        HubEvent::Opening {
            conn,
            target,
            fresh,
        } => {
            let words = [
                Plain(b"open"),
                Number(conn.0),
                Escaped(target.as_slice()),
                Plain(&fresh.0),
            ];
            append_line(out, &words)
        }
        HubEvent::Frame { conn, bytes } => append_line(
            out,
            &[Plain(b"frame"), Number(conn.0), Hex(bytes.as_slice())],
        ),
        HubEvent::Lost { conn } => append_line(out, &[Plain(b"drop"), Number(conn.0)]),
        HubEvent::Act { room, act } => append_act(out, room, act),
        HubEvent::Tick { room } => append_line(out, &[Plain(b"tick"), Plain(&room.0)]),
    }
}

/// Appends keys with a comma between each two.
fn append_keys(out: &mut Vec<u8>, keys: &[Text]) -> Result<(), Memory>
    ensures { OnOk result (out.new.items ≡ out.old.items ++ comma_joined keys.now) }
{
    let Some((first, rest)) = keys.split_first() else {
        return Ok(());
    };
    out.extend_from_slice(first.as_slice())?;
    if rest.is_empty() {
        return Ok(());
    }
    out.push(b',')?;
    append_keys(out, rest)
}

/// Appends the line of a definition of a room. An `Err` leaves `out` as it was.
fn append_def(alloc: Global, out: &mut Vec<u8>, def: &RoomDef) -> Result<(), Memory>
    ensures ok { OnOk result (out.new.items ≡ out.old.items ++ line (def_words def.now)) }
    ensures err { OnErr result (out.new.items ≡ out.old.items) }
{
    let mut keys = Vec::new(alloc);
    append_keys(&mut keys, def.filter.as_slice())?;
    let words = [
        Plain(b"room"),
        Plain(def.name.as_slice()),
        Plain(b"max"),
        number(def.max),
        Plain(b"seat"),
        Number(def.seat),
        Plain(b"patch"),
        Number(def.patch),
        Plain(b"keep"),
        Number(def.keep),
        Plain(b"filter"),
        Plain(&keys),
    ];
    if def.filter.is_empty() {
        append_line(out, &words[..10])
    } else {
        append_line(out, &words)
    }
}

/// Appends the lines of definitions of rooms. An `Err` may leave some of them.
#[tactic(auto, using(lists::proofs::Prefixes::starts_after, lists::proofs::Prefixes::starts_with_prefix))]
fn append_defs(alloc: Global, out: &mut Vec<u8>, defs: &[RoomDef]) -> Result<(), Memory>
    ensures ok { OnOk result (out.new.items ≡ out.old.items ++ lines (map def_words defs.now)) }
    ensures err { OnErr result (StartsWith out.new.items out.old.items) }
{
    for def in defs {
        append_def(alloc, out, def)?;
    }
    Ok(())
}

/// Appends the schema's lines, and those of the process and of the definitions. An `Err` may leave some of them.
#[tactic(auto, using(lists::proofs::Prefixes::starts_after, lists::proofs::Prefixes::starts_with_prefix))]
fn append_heading(out: &mut Vec<u8>, schedule: &Schedule) -> Result<(), Memory>
    ensures ok { OnOk result (out.new.items ≡ out.old.items ++ heading_text schedule.now) }
    ensures err { OnErr result (StartsWith out.new.items out.old.items) }
{
    let alloc = *out.allocator();
    let schema = write_schema(alloc, &schedule.schema)?;
    out.extend_from_slice(schema.as_slice())?;
    append_line(out, &[Plain(b"process"), Plain(&schedule.process.0)])?;
    append_defs(alloc, out, schedule.defs.as_slice())
}

/// Appends what a schedule says before its events: the schema's lines, and those of the process and of the definitions of
/// rooms. An `Err` leaves `out` as it was.
pub fn write_definitions(out: &mut Vec<u8>, schedule: &Schedule) -> Result<(), Memory>
    ensures ok { OnOk result (out.new.items ≡ out.old.items ++ heading_text schedule.now) }
    ensures err { OnErr result (out.new.items ≡ out.old.items) }
{
    let before = out.len();
    let outcome = append_heading(out, schedule);
    if outcome.is_err() {
        out.truncate(before);
    }
    outcome
}
