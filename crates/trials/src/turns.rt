//! What happens in a room and what it gives, as text.
ghost use Rattle.std.specs.Prelude.{◌≡◌, ◌<◌};

use crate::game::Game;
use crate::script::{add_answer, command_of, lines_of, row_of, schema_of};
use frame_model::MsgKind;
use frame_model::codes::{JOIN_ROOM, LEAVE_ROOM};
use lists::{Memory, Text};
use room_core::{Act, RoomEvent, RoomOut};
use schema_model::{Bytes, Id, Pair, Tag};
use std::alloc::Global;
use std::marker::Brand;
use std::process::Abort;
use std::sync::ledger::{Blank, Ledger};
use std::test::Fail;
use steps::Steps;

/// The id of nine times a letter.
pub fn id(letter: u8) -> Id {
    Id([letter; 9])
}

// An id, or what can't be one: nine characters, or nine times one letter.
fn id_of(word: &str) -> Result<Id, Fail> {
    match *word.as_bytes() {
        [letter] => Ok(id(letter)),
        [a, b, c, d, e, f, g, h, i] => Ok(Id([a, b, c, d, e, f, g, h, i])),
        _ => Err(Fail::new("no id")),
    }
}

// A row under the default tag.
fn pair_of(word: &str) -> Result<Pair, Fail> {
    let who = row_of(word)?;
    Ok(Pair { who, tag: Tag(-1) })
}

fn moment_of(word: &str) -> Result<u64, Fail> {
    Ok(word.parse::<u64>()?)
}

fn code_of(word: &str) -> Result<u16, Fail> {
    Ok(word.parse::<u16>()?)
}

fn frame(alloc: Global, session: Id, code: u8) -> Result<RoomEvent, Memory> {
    Ok(RoomEvent::Frame(session, Bytes::from_slice(alloc, &[code])?))
}

fn acknowledge(alloc: Global, session: Id) -> Result<RoomEvent, Memory> {
    frame(alloc, session, JOIN_ROOM)
}

/// A session comes: it is reserved, opened with its own letter for the token, and acknowledged.
pub fn coming(alloc: Global, session: Id) -> Result<Vec<RoomEvent>, Memory> {
    let mut events = Vec::new(alloc);
    events.push(RoomEvent::Reserve(session, 15_000))?;
    events.push(RoomEvent::Enter(session, None, session))?;
    events.push(acknowledge(alloc, session)?)?;
    Ok(events)
}

// An event: one of those below, or a command.
fn event_of(alloc: Global, text: &str) -> Result<RoomEvent, Fail> {
    let words: Vec<&str> = text.split(' ').collect(alloc)?;
    match event_in(alloc, &words)? {
        Some(event) => Ok(event),
        None => Ok(RoomEvent::Act(Act::State(command_of(alloc, text)?))),
    }
}

// An event that is no command, by how many words it has.
fn event_in(alloc: Global, words: &[&str]) -> Result<Option<RoomEvent>, Fail> {
    match *words {
        [verb] => Ok(event_alone(verb)),
        [verb, word] => event_with(alloc, verb, word),
        ["all", kind, payload] => Ok(Some(RoomEvent::Act(to_all(alloc, kind, payload)?))),
        ["frame", session, hex] => Ok(Some(RoomEvent::Frame(
            id_of(session)?,
            bytes_of(alloc, hex)?,
        ))),
        [verb, session, other] => session_event_with(verb, session, other),
        ["return", session, token, fresh] => Ok(Some(returning(session, token, fresh)?)),
        [verb @ ("send" | "raw"), session, kind, payload] => {
            Ok(Some(message(alloc, verb, session, kind, payload)?))
        }
        _ => Ok(None),
    }
}

// `tick`, `lock`, `unlock`.
fn event_alone(verb: &str) -> Option<RoomEvent> {
    match verb {
        "tick" => Some(RoomEvent::Tick),
        "lock" => Some(RoomEvent::Act(Act::Lock)),
        "unlock" => Some(RoomEvent::Act(Act::Unlock)),
        _ => None,
    }
}

// `moment 100`, or an event of a session.
fn event_with(alloc: Global, verb: &str, word: &str) -> Result<Option<RoomEvent>, Fail> {
    if verb == "moment" {
        return Ok(Some(RoomEvent::Moment(moment_of(word)?)));
    }
    session_event(alloc, verb, word)
}

// `return a x y` with letters for the token and the fresh one.
fn returning(session: &str, token: &str, fresh: &str) -> Result<RoomEvent, Fail> {
    let token = Some(id_of(token)?);
    Ok(RoomEvent::Enter(id_of(session)?, token, id_of(fresh)?))
}

// `send a chat 03` and `raw a #5 0102`: a kind, and a payload in hex.
fn message(
    alloc: Global,
    verb: &str,
    session: &str,
    kind: &str,
    payload: &str,
) -> Result<RoomEvent, Fail> {
    let session = id_of(session)?;
    let kind = kind_of(alloc, kind)?;
    let payload = bytes_of(alloc, payload)?;
    Ok(RoomEvent::Act(match verb {
        "raw" => Act::Raw(session, kind, payload),
        _ => Act::Send(session, kind, payload),
    }))
}

// `all chat 03`.
fn to_all(alloc: Global, kind: &str, payload: &str) -> Result<Act, Fail> {
    Ok(Act::ToAll(kind_of(alloc, kind)?, bytes_of(alloc, payload)?))
}

// A message kind: a name, or a number behind `#`.
fn kind_of(alloc: Global, word: &str) -> Result<MsgKind, Fail> {
    Ok(match word.strip_prefix("#") {
        Some(number) => MsgKind::Num(number.parse::<i32>()?),
        None => MsgKind::Name(Text::from_text(alloc, word)?),
    })
}

// Bytes in hex; `-` for none.
fn bytes_of(alloc: Global, word: &str) -> Result<Bytes, Fail> {
    let hex = if word == "-" { "" } else { word };
    match hex::decode(alloc, hex) {
        Ok(bytes) => Ok(Bytes::from_vec(bytes)),
        Err(_) => Err(Fail::new("no hex")),
    }
}

// An event of a session: `reserve a`, `acknowledge a`, `leave a`.
fn session_event(alloc: Global, verb: &str, session: &str) -> Result<Option<RoomEvent>, Fail> {
    match verb {
        "reserve" => Ok(Some(RoomEvent::Reserve(id_of(session)?, 15_000))),
        "acknowledge" => Ok(Some(acknowledge(alloc, id_of(session)?)?)),
        "leave" => Ok(Some(frame(alloc, id_of(session)?, LEAVE_ROOM)?)),
        _ => Ok(None),
    }
}

// An event of a session with a moment, a token or a row: `reserve a 100` with the lapse, `lose a 100`, `open a x` with a
// letter for the fresh token, and acts.
fn session_event_with(verb: &str, session: &str, other: &str) -> Result<Option<RoomEvent>, Fail> {
    match verb {
        "reserve" => Ok(Some(RoomEvent::Reserve(id_of(session)?, moment_of(other)?))),
        "lose" => Ok(Some(RoomEvent::Lost(id_of(session)?, moment_of(other)?))),
        "open" => Ok(Some(RoomEvent::Enter(id_of(session)?, None, id_of(other)?))),
        _ => match act_with(verb, session, other)? {
            Some(act) => Ok(Some(RoomEvent::Act(act))),
            None => Ok(None),
        },
    }
}

// An act on a session: `viewadd a 2`, `viewdel a 2`, `kick a 4001`, `keep a 100`.
fn act_with(verb: &str, session: &str, other: &str) -> Result<Option<Act>, Fail> {
    Ok(match verb {
        "viewadd" => Some(Act::ViewAdd(id_of(session)?, pair_of(other)?)),
        "viewdel" => Some(Act::ViewDel(id_of(session)?, pair_of(other)?)),
        "kick" => Some(Act::Kick(id_of(session)?, code_of(other)?)),
        "keep" => Some(Act::Keep(id_of(session)?, moment_of(other)?)),
        _ => None,
    })
}

// The events of a line: `come a`, or several events.
fn events_of(alloc: Global, line: &str) -> Result<Vec<RoomEvent>, Fail> {
    if let Some(session) = line.strip_prefix("come ") {
        return Ok(coming(alloc, id_of(session)?)?);
    }
    let mut events = Vec::new(alloc);
    for text in line.split("; ") {
        events.push(event_of(alloc, text)?)?;
    }
    Ok(events)
}

fn letter(session: Id) -> char {
    char::from(session.0[0])
}

fn out_text(alloc: Global, out: &RoomOut) -> Result<String, Fail> {
    Ok(match out {
        RoomOut::Send(session, bytes) => {
            let hex = hex::encode(alloc, bytes.as_slice())?;
            format!(in alloc; "{} {hex}", letter(*session))?
        }
        RoomOut::Close(session, code) => format!(in alloc; "{} closed {code}", letter(*session))?,
        RoomOut::Entered(session) => format!(in alloc; "{} entered", letter(*session))?,
        RoomOut::Back(session) => format!(in alloc; "{} back", letter(*session))?,
        RoomOut::Dropped(session) => format!(in alloc; "{} dropped", letter(*session))?,
        RoomOut::Left(session) => format!(in alloc; "{} left", letter(*session))?,
        RoomOut::NoSeat(session) => format!(in alloc; "{} has no seat", letter(*session))?,
        RoomOut::TokenInUse(session) => format!(in alloc; "{}: token in use", letter(*session))?,
        RoomOut::Made(number) => format!(in alloc; "made {}", number.0)?,
        RoomOut::Refused(refusal) => format!(in alloc; "refused: {refusal}")?,
        RoomOut::Message(session, kind, payload) => {
            message_text(alloc, *session, "says", kind, payload)?
        }
        RoomOut::RawMessage(session, kind, payload) => {
            message_text(alloc, *session, "sends", kind, payload)?
        }
    })
}

fn message_text(
    alloc: Global,
    session: Id,
    verb: &str,
    kind: &MsgKind,
    payload: &Bytes,
) -> Result<String, Fail> {
    let hex = hex::encode(alloc, payload.as_slice())?;
    let session = letter(session);
    Ok(match kind {
        MsgKind::Name(name) => format!(in alloc; "{session} {verb} {} {hex}", name.as_str())?,
        MsgKind::Num(number) => format!(in alloc; "{session} {verb} #{number} {hex}")?,
    })
}

// What the room gives at a line, or that it doesn't take it.
fn given<L: Ledger>(
    rt: &impl Abort,
    alloc: Global,
    game: &mut Game,
    line: &str,
    steps: &mut Steps<L>,
) -> Result<String, Fail> {
    let mut answers = String::new(alloc);
    for event in &events_of(alloc, line)? {
        if !game.room.takes(event) {
            add_answer(&mut answers, "not taken")?;
            continue;
        }
        for out in game.give(rt, alloc, event, steps)?.as_slice() {
            add_answer(&mut answers, &out_text(alloc, out)?)?;
        }
    }
    Ok(answers)
}

fn play_all<L: Ledger>(
    rt: &impl Abort,
    alloc: Global,
    game: &mut Game,
    lines: &[(&str, &str)],
    blank: Blank,
) -> Result<(), Fail>
    requires name { blank.name ≡ L.name }
    requires parts { blank.parts ≡ L.parts }
    requires some { 0 < blank.parts }
{
    let mut steps = Steps::<L>::new(blank);
    for (line, expected) in lines {
        let found = given(rt, alloc, game, line, &mut steps)?;
        assert_eq!(rt; found.as_str(), *expected, "{line}");
    }
    Ok(())
}

/// A room of four places gives what a script says.
pub fn play(rt: &impl Abort, alloc: Global, schema: &str, script: &str) -> Result<(), Fail> {
    play_in(rt, alloc, schema, 4, script)
}

/// A room of so many places does. It keeps seats for 20 seconds.
pub fn play_in(
    rt: &impl Abort,
    alloc: Global,
    schema: &str,
    max: u32,
    script: &str,
) -> Result<(), Fail> {
    let mut game = Game::new(alloc, &schema_of(alloc, schema)?, max)?;
    let lines = lines_of(alloc, script)?;
    play_all::<Brand>(rt, alloc, &mut game, &lines, Blank::new(1))
}
