//! What the target of a request asks for.
ghost use Rattle.std.specs.Prelude.{◌≡◌, ◌++◌, codes, true, option_map, IfOk, IfSome, OnErr};
ghost use Rattle.std.specs.Cow.{cow_str_bytes};
ghost use Rattle.std.specs.Str.{is_utf8};
ghost use Rattle.percent_encoding.specs.Percent.{percent_decode};
ghost use Rattle.hub_model.specs.Requests.{asked_of, after_prefix, first_asked, method_word, name_of, named_by, up_to};
ghost use Rattle.matchmaker.specs.Gives.{has_escape};

use crate::text::{after_prefix, up_to};
use hub_model::Method;
use lists::Memory;
use percent_encoding::{DecodeError, percent_decode};
use std::alloc::Global;
use std::borrow::CowStr;
use validate::is_escaped_text;

// The methods in the order in which they are tried.
const METHODS: [Method; 5] = [
    Method::JoinOrCreate,
    Method::Create,
    Method::Join,
    Method::JoinById,
    Method::Reconnect,
];

/// The method that a target asks for, and the name as it stands there: the target is `/matchmake/METHOD/NAME`, with any
/// query, and the name is a text where its escapes are read. It takes no memory.
pub fn asked_of(target: &str) -> Option<(Method, &[u8])>
    ensures value { option_map (λ a. (a.0, percent_decode a.1.now)) result ≡ asked_of target.now }
    ensures text { IfSome result (λ a. is_utf8 (percent_decode a.1.now) ≡ true) }
    ensures escape { IfSome result (λ a. has_escape a.1.now ≡ true → has_escape target.now ≡ true) }
{
    first_asked(&METHODS, target.as_bytes())
}

// The first of these methods that a target asks for.
fn first_asked<'a>(methods: &[Method], target: &'a [u8]) -> Option<(Method, &'a [u8])>
    ensures value { option_map (λ a. (a.0, percent_decode a.1.now)) result ≡ first_asked methods.now target.now }
    ensures text { IfSome result (λ a. is_utf8 (percent_decode a.1.now) ≡ true) }
    ensures escape { IfSome result (λ a. has_escape a.1.now ≡ true → has_escape target.now ≡ true) }
{
    let [method, methods @ ..] = methods else {
        return None;
    };
    match named_by(*method, target) {
        Some(name) => Some((*method, name)),
        None => first_asked(methods, target),
    }
}

// The name that a target asks for by a method.
fn named_by(method: Method, target: &[u8]) -> Option<&[u8]>
    ensures value { option_map (λ n. percent_decode n.now) result ≡ named_by method target.now }
    ensures text { IfSome result (λ n. is_utf8 (percent_decode n.now) ≡ true) }
    ensures escape { IfSome result (λ n. has_escape n.now ≡ true → has_escape target.now ≡ true) }
{
    match raw_name(method, target) {
        Some(raw) => named(raw),
        None => None,
    }
}

// A name as it stands in a target, where it is one.
fn named(raw: &[u8]) -> Option<&[u8]>
    ensures value { option_map (λ n. percent_decode n.now) result ≡ name_of raw.now }
    ensures text { IfSome result (λ n. is_utf8 (percent_decode n.now) ≡ true) }
    ensures same { IfSome result (λ n. n.now ≡ raw.now) }
{
    if !raw.is_empty() && !raw.contains(&b'/') && is_escaped_text(raw) {
        Some(raw)
    } else {
        None
    }
}

/// A name with its escapes read. Memory is taken only where it has one.
pub fn name_from(alloc: Global, raw: &[u8]) -> Result<CowStr<'_, Global>, Memory>
    requires { is_utf8 (percent_decode raw.now) ≡ true }
    ensures value { IfOk result (λ name. cow_str_bytes name ≡ percent_decode raw.now) }
    ensures memory { OnErr result (has_escape raw.now ≡ true) }
{
    match percent_decode(raw).decode_utf8(alloc) {
        Ok(name) => Ok(name),
        Err(DecodeError::OutOfMemory) => Err(Memory),
        Err(DecodeError::Utf8(_)) => unreachable!(),
    }
}

// What stands behind `/matchmake/METHOD/`, up to the query.
fn raw_name(method: Method, target: &[u8]) -> Option<&[u8]>
    ensures { option_map (λ r. r.now) result ≡ after_prefix (codes "/matchmake/" ++ (method_word method ++ codes "/")) (up_to 63 target.now) }
{
    match after_prefix(b"/matchmake/", up_to(b'?', target)) {
        Some(rest) => behind_word(method, rest),
        None => None,
    }
}

// What stands behind `METHOD/`.
fn behind_word(method: Method, text: &[u8]) -> Option<&[u8]>
    ensures { option_map (λ r. r.now) result ≡ after_prefix (method_word method ++ codes "/") text.now }
{
    match after_prefix(word(method), text) {
        Some(rest) => after_prefix(b"/", rest),
        None => None,
    }
}

// The name of a method in a target.
fn word(method: Method) -> &'static [u8]
    ensures { result.now ≡ method_word method }
{
    match method {
        Method::JoinOrCreate => b"joinOrCreate",
        Method::Create => b"create",
        Method::Join => b"join",
        Method::JoinById => b"joinById",
        Method::Reconnect => b"reconnect",
    }
}
