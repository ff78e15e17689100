//! What the target of an opening says.
ghost use Rattle.std.specs.Prelude.{◌≡◌, ◌≤◌, length, option_map, Option, Some, drop, OnSome};
ghost use Rattle.std.specs.List.{find};
ghost use Rattle.std.specs.Str.{bytes_eq};
ghost use Rattle.hub_model.specs.Requests.{up_to};
ghost use Rattle.hub_model.specs.Openings.{id_first, pieces, read_target, value_of, with_process, with_query, with_room};

use crate::text::{after_prefix, behind, up_to};
use hub_model::Opening;
use schema_model::{Id, id_of};

/// What a target opens: it is `/PROCESS/ROOM?QUERY`, where the query has a session and may have a token. Of a key that
/// comes again the first value counts, and other keys are passed over; a piece without `=` has the empty value. A token that
/// is no id makes it a target of another form. Nothing is percent-decoded.
pub fn read_target(target: &str) -> Option<Opening>
    ensures { result ≡ read_target target.now }
{
    let rest = after_prefix(b"/", target.as_bytes())?;
    let process = id_first(rest)?;
    with_process(process, &rest[9..])
}

fn with_process(process: Id, rest: &[u8]) -> Option<Opening>
    ensures { result ≡ with_process (process, rest.now) }
{
    let rest = after_prefix(b"/", rest)?;
    let room = id_first(rest)?;
    with_room(process, room, &rest[9..])
}

fn with_room(process: Id, room: Id, rest: &[u8]) -> Option<Opening>
    ensures { result ≡ with_room process (room, rest.now) }
{
    with_query(process, room, after_prefix(b"?", rest)?)
}

fn with_query(process: Id, room: Id, query: &[u8]) -> Option<Opening>
    ensures { result ≡ with_query process room (pieces 38 query.now) }
{
    let session = id_of(value_of(b"sessionId", query)?)?;
    let token = match value_of(b"reconnectionToken", query) {
        Some(token) => Some(id_of(token)?),
        None => None,
    };
    Some(Opening {
        process,
        room,
        session,
        token,
    })
}

// An id before a text.
#[tactic(auto, using(crate::proofs::Texts::short_is_no_id))]
fn id_first(text: &[u8]) -> Option<Id>
    ensures id { id_first text.now ≡ option_map (λ id. (id, drop 9 text.now)) result }
    ensures within { OnSome result (9 ≤ length text.now) }
{
    if text.len() < 9 {
        return None;
    }
    id_of(&text[..9])
}

// The value of a key in a query: that of the first piece of its name, and the empty one of a piece without `=`.
fn value_of<'a>(key: &[u8], query: &'a [u8]) -> Option<&'a [u8]>
    ensures { option_map (λ v. v.now) result ≡ value_of key.now (pieces 38 query.now) }
{
    match piece_of(key, query) {
        Some(piece) => Some(behind(b'=', piece)),
        None => None,
    }
}

// The first piece of a query that has this name.
fn piece_of<'a>(key: &[u8], query: &'a [u8]) -> Option<&'a [u8]>
    ensures { option_map (λ p. p.now) result ≡ find (λ p. bytes_eq (up_to 61 p) key.now) (pieces 38 query.now) }
{
    query
        .split(|byte| *byte == b'&')
        .find(|piece| up_to(b'=', piece) == key)
}
