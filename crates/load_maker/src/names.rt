//! The ids and targets of a load.
ghost use Rattle.std.specs.Prelude.{◌≡◌, ◌/◌, ◌++◌, IfOk, IsTrue, codes};
ghost use Rattle.schema_model.specs.Ids.{is_id};
ghost use Rattle.hub_model.specs.Replies.{join_or_create_target, opening_target};
ghost use Rattle.load_maker.specs.Generated.{digit, process_id, return_id, return_target, room_id, session_id, token_id};

use lists::{Memory, Text};
use schema_model::{Id, id_text};
use std::alloc::Global;

/// The process.
pub const PROCESS: Id = Id(*b"proc00001");

/// The room.
pub const ROOM: Id = Id(*b"room00001");

// The last digit of a number.
fn digit(number: u32) -> u8
    ensures { result ≡ digit number }
{
    b'0' + (number % 10) as u8
}

/// The session of a client.
pub fn session_id(client: u32) -> Id
    ensures { result ≡ session_id client }
{
    let [s, e, t, u, a, b, c, d] = *b"sess0000";
    Id([s, e, t, u, a, b, c, d, digit(client)])
}

/// The token that the opening of a client draws.
pub fn token_id(client: u32) -> Id
    ensures { result ≡ token_id client }
{
    let [t, o, k, a, b, c, d, e] = *b"tok00000";
    Id([t, o, k, a, b, c, d, e, digit(client)])
}

/// The token that a return in a round draws.
pub fn return_id(round: u32) -> Id
    ensures { result ≡ return_id round }
{
    Id([
        b'r',
        b'e',
        b't',
        digit(round / 100_000),
        digit(round / 10_000),
        digit(round / 1_000),
        digit(round / 100),
        digit(round / 10),
        digit(round),
    ])
}

/// The target of a request for a room of a name.
pub fn join_target(alloc: Global, name: &str) -> Result<Text, Memory>
    ensures { IfOk result (λ t. t ≡ join_or_create_target name.now) }
{
    let text = format!(in alloc; "/matchmake/joinOrCreate/{name}")?;
    Ok(Text::from_string(text))
}

/// The target of the opening of a session.
pub fn opening_target(alloc: Global, session: &Id) -> Result<Text, Memory>
    requires { IsTrue (is_id session.now) }
    ensures { IfOk result (λ t. t ≡ opening_target process_id room_id session.now) }
{
    target_of(alloc, id_text(&PROCESS), id_text(&ROOM), id_text(session))
}

fn target_of(alloc: Global, process: &str, room: &str, session: &str) -> Result<Text, Memory>
    ensures { IfOk result (λ t. t ≡ opening_target process.now room.now session.now) }
{
    let text = format!(in alloc; "/{process}/{room}?sessionId={session}")?;
    Ok(Text::from_string(text))
}

/// The target of the return of a session under a token.
pub fn return_target(alloc: Global, session: &Id, token: &Id) -> Result<Text, Memory>
    requires session { IsTrue (is_id session.now) }
    requires token { IsTrue (is_id token.now) }
    ensures { IfOk result (λ t. t ≡ return_target process_id room_id session.now token.now) }
{
    let opening = opening_target(alloc, session)?;
    with_token(alloc, opening.as_str(), id_text(token))
}

fn with_token(alloc: Global, opening: &str, token: &str) -> Result<Text, Memory>
    ensures { IfOk result (λ t. t ≡ opening.now ++ (codes "&reconnectionToken=" ++ token.now)) }
{
    let text = format!(in alloc; "{opening}&reconnectionToken={token}")?;
    Ok(Text::from_string(text))
}
