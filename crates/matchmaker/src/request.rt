//! What a target and a body ask for.
ghost use Rattle.std.specs.Prelude.{◌≡◌, true, false, map, None, option_copied, IfOk};
ghost use Rattle.std.specs.Str.{is_utf8};
ghost use Rattle.percent_encoding.specs.Percent.{percent_decode};
ghost use Rattle.serde_json.specs.View.{view};
ghost use Rattle.serde_json.specs.Written.{has_float};
ghost use Rattle.hub_model.specs.Requests.{def_of, read_request, request_of, said_of, with_body};
ghost use Rattle.matchmaker.specs.Bodies.{all_said, members_in, said_by, token_in};
ghost use Rattle.matchmaker.specs.Gives.{GivesAsked, GivesFound, GivesRequest, MakesRequest};

use crate::body::{can_be_read, read_body, said_of, token_of};
use crate::target::{asked_of, name_from};
use hub_model::{AskFault, Method, Request};
use lists::{Memory, Seq, Text};
use room_model::{RoomDef, Texts};
use schema_model::Id;
use serde_json::Value;
use std::alloc::Global;

/// What a target and a body ask for. `NoMethod` where the target asks for nothing; then `BadPayload` where the body is no
/// object of whole numbers, or a request by a token has none of nine id characters; then `NoHandler` where no definition
/// has the name. Memory is taken only once the target asks for something and its body is known to be JSON.
pub fn read_request(
    alloc: Global,
    defs: &[RoomDef],
    target: &str,
    body: &[u8],
) -> Result<Request, AskFault>
    ensures { GivesRequest target.now body.now result (read_request defs.now target.now (said_by body.now)) }
{
    let Some((method, raw)) = asked_of(target) else {
        return Err(AskFault::NoMethod);
    };
    if !can_be_read(body) {
        return Err(AskFault::BadPayload);
    }
    asked_for(alloc, defs, method, raw, body)
}

// What a method, a name as it stands in a target, and a body ask for.
fn asked_for(
    alloc: Global,
    defs: &[RoomDef],
    method: Method,
    raw: &[u8],
    body: &[u8],
) -> Result<Request, AskFault>
    requires { is_utf8 (percent_decode raw.now) ≡ true }
    ensures { GivesAsked raw.now body.now result (with_body defs.now (method, percent_decode raw.now) (said_by body.now)) }
{
    match name_from(alloc, raw) {
        Ok(name) => {
            let said = read_body(alloc, body)?;
            request_of(alloc, defs, method, name.as_str(), &said)
        }
        Err(_) => Err(AskFault::Memory),
    }
}

// What a method and a body ask for.
fn request_of(
    alloc: Global,
    defs: &[RoomDef],
    method: Method,
    name: &str,
    said: &Value,
) -> Result<Request, AskFault>
    requires { has_float (view said.now) ≡ false }
    ensures { GivesFound result (request_of defs.now method name.now (all_said (view said.now))) }
{
    match method {
        Method::JoinById => made(alloc, method, name, Seq::new(alloc), None),
        Method::Reconnect => match token_of(said) {
            Some(token) => made(alloc, method, name, Seq::new(alloc), Some(token)),
            None => Err(AskFault::BadPayload),
        },
        Method::JoinOrCreate | Method::Create | Method::Join => match def_of(defs, name) {
            Some(def) => handled(alloc, method, name, said, def.filter.as_slice()),
            None => Err(AskFault::NoHandler),
        },
    }
}

// A request for a room of a definition, by the keys of its filter.
fn handled(
    alloc: Global,
    method: Method,
    name: &str,
    said: &Value,
    keys: &[Text],
) -> Result<Request, AskFault>
    requires { has_float (view said.now) ≡ false }
    ensures { MakesRequest result method name.now (map (said_of (members_in (view said.now))) keys.now) None }
{
    match criteria(alloc, said, keys) {
        Ok(criteria) => made(alloc, method, name, criteria, None),
        Err(_) => Err(AskFault::Memory),
    }
}

// The texts of the values of keys.
fn criteria(alloc: Global, said: &Value, keys: &[Text]) -> Result<Texts, Memory>
    requires { has_float (view said.now) ≡ false }
    ensures { IfOk result (λ texts. texts ≡ map (said_of (members_in (view said.now))) keys.now) }
{
    let mut texts = Seq::new(alloc);
    for key in keys {
        texts.push(said_of(alloc, said, key.as_str())?)?;
    }
    Ok(texts)
}

// The request of these parts.
fn made(
    alloc: Global,
    method: Method,
    name: &str,
    criteria: Texts,
    token: Option<Id>,
) -> Result<Request, AskFault>
    ensures { MakesRequest result method name.now criteria token }
{
    match Text::from_text(alloc, name) {
        Ok(name) => Ok(Request {
            method,
            name,
            criteria,
            token,
        }),
        Err(_) => Err(AskFault::Memory),
    }
}

// The definition of a name.
fn def_of<'a>(defs: &'a [RoomDef], name: &str) -> Option<&'a RoomDef>
    ensures { option_copied result ≡ def_of defs.now name.now }
{
    defs.iter().find(|def| def.name.as_str() == name)
}
