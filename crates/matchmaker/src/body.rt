//! What the body of a request says.
ghost use Rattle.std.specs.Prelude.{◌≡◌, false, None, Some, IfOk, IfErr};
ghost use Rattle.serde_json.specs.View.{view};
ghost use Rattle.serde_json.specs.Written.{has_float};
ghost use Rattle.hub_model.specs.Requests.{said_of};
ghost use Rattle.hub_model.specs.declared.request.AskFault.TheVariants.{BadPayload};
ghost use Rattle.matchmaker.specs.Bodies.{all_said, can_be_read, data_by, id_said, members_in, said_by, said_of_data, token_in};
ghost use Rattle.matchmaker.specs.Gives.{LacksBody};

use crate::whole::has_float;
use hub_model::AskFault;
use lists::{Memory, Text};
use schema_model::{Id, id_of};
use serde_json::{Map, Value};
use std::alloc::Global;
use validate::is_json;

/// Whether a body can be read: it is empty or a JSON text. It takes no memory.
pub fn can_be_read(body: &[u8]) -> bool
    ensures { result ≡ can_be_read body.now }
{
    body.is_empty() || is_json(body)
}

/// The object that a body is; an empty body is an empty one. `BadPayload` where it is none, or has a number that is no
/// whole one of 64 bits.
pub fn read_body(alloc: Global, body: &[u8]) -> Result<Value, AskFault>
    ensures whole { IfOk result (λ v. has_float (view v) ≡ false) }
    ensures data { IfOk result (λ v. data_by body.now ≡ Some (view v)) }
    ensures said { IfOk result (λ v. said_by body.now ≡ Some (all_said (view v))) }
    ensures err { IfErr result (λ fault. LacksBody body.now fault) }
{
    if body.is_empty() {
        return Ok(Value::Object(Map::new(alloc)));
    }
    match Value::from_slice(alloc, body) {
        Ok(value) => object(value),
        Err(fault) if fault.is_memory() => Err(AskFault::Memory),
        Err(_) => Err(AskFault::BadPayload),
    }
}

/// The compact text of a key's value; the empty one where it is absent.
pub fn said_of(alloc: Global, said: &Value, key: &str) -> Result<Text, Memory>
    requires { has_float (view said.now) ≡ false }
    ensures { IfOk result (λ t. t ≡ said_of (members_in (view said.now)) key.now) }
{
    match said.get(key) {
        Some(value) => Ok(Text::from_string(value.to_string(alloc)?)),
        None => Text::from_text(alloc, ""),
    }
}

/// The reconnection token, where it is a text of nine id characters.
pub fn token_of(said: &Value) -> Option<Id>
    ensures { result ≡ token_in (view said.now) }
{
    match said.get("reconnectionToken") {
        Some(token) => id_said(token),
        None => None,
    }
}

// A value that is an object and has only whole numbers of 64 bits.
fn object(value: Value) -> Result<Value, AskFault>
    ensures whole { IfOk result (λ v. has_float (view v) ≡ false) }
    ensures data { IfOk result (λ v. Some (view value) ≡ Some (view v)) }
    ensures said { IfOk result (λ v. said_of_data (view value) ≡ Some (all_said (view v))) }
    ensures err { IfErr result (λ fault. (fault ≡ BadPayload) × (said_of_data (view value) ≡ None)) }
{
    if value.is_object() && !has_float(&value) {
        Ok(value)
    } else {
        Err(AskFault::BadPayload)
    }
}

// A text of nine id characters.
fn id_said(value: &Value) -> Option<Id>
    ensures { result ≡ id_said (view value.now) }
{
    match value.as_str() {
        Some(text) => id_of(text.as_bytes()),
        None => None,
    }
}
