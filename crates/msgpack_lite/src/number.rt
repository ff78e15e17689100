//! Numbers, lengths and runs of bytes at a place. They take no memory.
ghost use Rattle.std.specs.Prelude.{◌≡◌, ◌≤◌, ◌<◌, length, MatchResult, IfOk, Ok, Err};
ghost use Rattle.std.specs.Int.{w8, w16, w32, w64};
ghost use Rattle.msgpack_lite.specs.Numbers.{signed_at};
ghost use Rattle.frame_model.specs.Packs.{bytes_at, key_at, length_at, run_at, text_at, width_at, width_of};

use crate::form::form_of;
use frame_model::PackFault;
use frame_model::form::{Form, Length, Size};

/// The byte at a place, and the place after it.
pub fn byte_at(bytes: &[u8], at: usize) -> Result<(u8, usize), PackFault>
    requires { at ≤ length bytes.now }
    ensures value { result ≡ width_at w8 bytes.now at }
    ensures within { IfOk result (λ read. read.1 ≤ length bytes.now) }
{
    let Some(found) = bytes.get(at) else {
        return Err(PackFault::Short(bytes.len()))
    };
    Ok((*found, at + 1))
}

fn two_at(bytes: &[u8], at: usize) -> Result<(u16, usize), PackFault>
    requires { at ≤ length bytes.now }
    ensures value { result ≡ width_at w16 bytes.now at }
    ensures within { IfOk result (λ read. read.1 ≤ length bytes.now) }
{
    let Some(found) = bytes[at..].first_chunk() else {
        return Err(PackFault::Short(bytes.len()))
    };
    Ok((u16::from_be_bytes(*found), at + 2))
}

fn four_at(bytes: &[u8], at: usize) -> Result<(u32, usize), PackFault>
    requires { at ≤ length bytes.now }
    ensures value { result ≡ width_at w32 bytes.now at }
    ensures within { IfOk result (λ read. read.1 ≤ length bytes.now) }
{
    let Some(found) = bytes[at..].first_chunk() else {
        return Err(PackFault::Short(bytes.len()))
    };
    Ok((u32::from_be_bytes(*found), at + 4))
}

fn eight_at(bytes: &[u8], at: usize) -> Result<(u64, usize), PackFault>
    requires { at ≤ length bytes.now }
    ensures value { result ≡ width_at w64 bytes.now at }
    ensures within { IfOk result (λ read. read.1 ≤ length bytes.now) }
{
    let Some(found) = bytes[at..].first_chunk() else {
        return Err(PackFault::Short(bytes.len()))
    };
    Ok((u64::from_be_bytes(*found), at + 8))
}

/// A number of a size, and the place after it.
pub fn number_at(size: Size, bytes: &[u8], at: usize) -> Result<(u64, usize), PackFault>
    requires { at ≤ length bytes.now }
    ensures value { result ≡ width_at (width_of size) bytes.now at }
    ensures within { IfOk result (λ read. read.1 ≤ length bytes.now) }
{
    match size {
        Size::One => byte_at(bytes, at).map(|(found, next)| (u64::from(found), next)),
        Size::Two => two_at(bytes, at).map(|(found, next)| (u64::from(found), next)),
        Size::Four => four_at(bytes, at).map(|(found, next)| (u64::from(found), next)),
        Size::Eight => eight_at(bytes, at),
    }
}

/// A signed number of a size, and the place after it.
pub fn signed_at(size: Size, bytes: &[u8], at: usize) -> Result<(i64, usize), PackFault>
    requires { at ≤ length bytes.now }
    ensures value { result ≡ signed_at size bytes.now at }
    ensures within { IfOk result (λ read. read.1 ≤ length bytes.now) }
{
    match size {
        Size::One => byte_at(bytes, at).map(|(found, next)| (i64::from(found.cast_signed()), next)),
        Size::Two => two_at(bytes, at).map(|(found, next)| (i64::from(found.cast_signed()), next)),
        Size::Four => four_at(bytes, at).map(|(found, next)| (
            i64::from(found.cast_signed()),
            next,
        )),
        Size::Eight => eight_at(bytes, at).map(|(found, next)| (found.cast_signed(), next)),
    }
}

/// A length, which is told or stands at a place, and the place after it.
pub fn length_at(len: Length, bytes: &[u8], at: usize) -> Result<(u64, usize), PackFault>
    requires { at ≤ length bytes.now }
    ensures value { result ≡ length_at len bytes.now at }
    ensures within { IfOk result (λ read. read.1 ≤ length bytes.now) }
{
    match len {
        Length::Told(len) => Ok((u64::from(len), at)),
        Length::Behind(size) => number_at(size, bytes, at),
    }
}

/// The bytes behind their length, and the place after them.
#[tactic(auto, unfolding(frame_model::specs::Packs::run_at))]
pub fn run_at<'a>(len: Length, bytes: &'a [u8], at: usize) -> Result<(&'a [u8], usize), PackFault>
    requires { at ≤ length bytes.now }
    ensures value { MatchResult result
        (λ read. run_at len bytes.now at ≡ Ok (read.0.now, read.1))
        (λ fault. run_at len bytes.now at ≡ Err fault) }
    ensures within { IfOk result (λ read. read.1 ≤ length bytes.now) }
{
    let (len, start) = length_at(len, bytes, at)?;
    bytes_at(bytes, len, start)
}

fn bytes_at<'a>(bytes: &'a [u8], len: u64, start: usize) -> Result<(&'a [u8], usize), PackFault>
    requires { start ≤ length bytes.now }
    ensures value { MatchResult result
        (λ read. bytes_at bytes.now (len, start) ≡ Ok (read.0.now, read.1))
        (λ fault. bytes_at bytes.now (len, start) ≡ Err fault) }
    ensures within { IfOk result (λ read. read.1 ≤ length bytes.now) }
{
    if ((bytes.len() - start) as u64) < len {
        return Err(PackFault::Short(bytes.len()));
    }
    let end = start + len as usize;
    Ok((&bytes[start..end], end))
}

/// The text behind its length, and the place after it; the value begins at `at`.
#[tactic(auto, unfolding(frame_model::specs::Packs::text_at))]
pub fn text_at<'a>(len: Length, bytes: &'a [u8], at: usize) -> Result<(&'a str, usize), PackFault>
    requires { at < length bytes.now }
    ensures value { MatchResult result
        (λ read. text_at len bytes.now at ≡ Ok (read.0.now, read.1))
        (λ fault. text_at len bytes.now at ≡ Err fault) }
    ensures within { IfOk result (λ read. read.1 ≤ length bytes.now) }
{
    let (run, end) = run_at(len, bytes, at + 1)?;
    match std::str::from_utf8(run) {
        Ok(text) => Ok((text, end)),
        Err(_) => Err(PackFault::BadText(at)),
    }
}

/// The key at a place, and the place after it.
#[tactic(auto, unfolding(frame_model::specs::Packs::key_at))]
pub fn key_at<'a>(bytes: &'a [u8], at: usize) -> Result<(&'a str, usize), PackFault>
    requires { at ≤ length bytes.now }
    ensures value { MatchResult result
        (λ read. key_at bytes.now at ≡ Ok (read.0.now, read.1))
        (λ fault. key_at bytes.now at ≡ Err fault) }
    ensures within { IfOk result (λ read. read.1 ≤ length bytes.now) }
{
    let (first, _) = byte_at(bytes, at)?;
    match form_of(first) {
        Form::Text(len) => text_at(len, bytes, at),
        _ => Err(PackFault::KeyNotText(at)),
    }
}
