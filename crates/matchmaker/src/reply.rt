//! The texts of replies, as compact JSON.
ghost use Rattle.std.specs.Prelude.{◌≡◌, ◌++◌, codes, IsTrue, IfOk};
ghost use Rattle.std.specs.Fmt.{decimal};
ghost use Rattle.std.specs.String.{string_bytes};
ghost use Rattle.schema_model.specs.Ids.{is_id};
ghost use Rattle.hub_model.specs.Replies.{json_text, refusal_reply, seat_reply};

use hub_model::Listing;
use lists::{Memory, Text};
use schema_model::{Id, id_text};
use serde_json::Value;
use std::alloc::Global;

/// The reply to a request that got a seat. Whether an id is one is what `is_id` says.
pub fn reply_text(
    alloc: Global,
    listing: &Listing,
    name: &str,
    process: Id,
    session: Id,
) -> Result<Text, Memory>
    requires process { IsTrue (is_id process) }
    requires room { IsTrue (is_id listing.now.id) }
    requires session { IsTrue (is_id session) }
    ensures { IfOk result (λ t. t ≡ seat_reply listing.now.in_use listing.now.max name.now process listing.now.id session) }
{
    let seats = seats_text(alloc, listing.in_use, listing.max, name)?;
    let place = place_text(alloc, process, listing.id, session)?;
    let text = format!(in alloc; "{{\"room\":{{{seats},{place}}}")?;
    Ok(Text::from_string(text))
}

/// The reply to a request that is refused.
pub fn refusal_text(alloc: Global, code: u32, text: &str) -> Result<Text, Memory>
    ensures { IfOk result (λ t. t ≡ refusal_reply code text.now) }
{
    let error = quoted(alloc, text)?;
    let text = format!(in alloc; "{{\"code\":{code},\"error\":{error}}}")?;
    Ok(Text::from_string(text))
}

// The members of the room's object that tell its seats and its name.
fn seats_text(alloc: Global, clients: u32, max: u32, name: &str) -> Result<String, Memory>
    ensures { IfOk result (λ t. string_bytes t ≡ codes "\"clients\":" ++ (decimal clients ++ (codes ",\"maxClients\":" ++ (decimal max
        ++ (codes ",\"name\":" ++ json_text name.now))))) }
{
    let name = quoted(alloc, name)?;
    Ok(format!(in alloc; "\"clients\":{clients},\"maxClients\":{max},\"name\":{name}")?)
}

// The members of the room's object that tell where it is, its end, and the session's member.
fn place_text(alloc: Global, process: Id, room: Id, session: Id) -> Result<String, Memory>
    requires process { IsTrue (is_id process) }
    requires room { IsTrue (is_id room) }
    requires session { IsTrue (is_id session) }
    ensures { IfOk result (λ t. string_bytes t ≡ codes "\"processId\":" ++ (json_text process ++ (codes ",\"roomId\":" ++ (json_text room
        ++ (codes "},\"sessionId\":" ++ json_text session))))) }
{
    let process = quoted_id(alloc, process)?;
    let room = quoted_id(alloc, room)?;
    let session = quoted_id(alloc, session)?;
    Ok(format!(in alloc; "\"processId\":{process},\"roomId\":{room}}},\"sessionId\":{session}")?)
}

// An id in quotes.
fn quoted_id(alloc: Global, id: Id) -> Result<String, Memory>
    requires { IsTrue (is_id id) }
    ensures { IfOk result (λ t. string_bytes t ≡ json_text id) }
{
    quoted(alloc, id_text(&id))
}

// A text in quotes, with its escapes.
fn quoted(alloc: Global, text: &str) -> Result<String, Memory>
    ensures { IfOk result (λ t. string_bytes t ≡ json_text text.now) }
{
    let value = Value::String(String::from_str(alloc, text)?);
    Ok(value.to_string(alloc)?)
}
