ghost use Rattle.std.specs.Prelude.{◌≡◌, ◌≤◌, ◌<◌, ◌^◌, ◌++◌, ℕ, List, length, OnOk, OnErr, Ok, pos, negsuc};
ghost use Rattle.schema_model.specs.Spelling.{number_bytes};
ghost use Rattle.schema_model.specs.Reading.{number_at, number_of, wide_at};

use crate::fixed::{fixed_8, fixed_32, signed_8, signed_16, signed_32, unsigned_8, unsigned_16};
use schema_model::{Memory, ReadFault};

/// Appends a `number` in its shortest form. An `Err` leaves `out` as it was.
pub fn put_number(out: &mut Vec<u8>, value: i32) -> Result<(), Memory>
    ensures ok { OnOk result (out.new.items ≡ out.old.items ++ number_bytes value) }
    // What was written is read again, whatever follows.
    ensures again { OnOk result ((more : List ℕ) →
        number_at (out.new.items ++ more) (length out.old.items) ≡ Ok (value, length out.new.items)) }
    ensures err { OnErr result (out.new.items ≡ out.old.items) }
{
    if value < 0 {
        put_negative(out, !value as u32)
    } else {
        put_natural(out, value as u32)
    }
}

fn put_natural(out: &mut Vec<u8>, value: u32) -> Result<(), Memory>
    ensures ok { OnOk result (out.new.items ≡ out.old.items ++ number_bytes (pos value)) }
    ensures err { OnErr result (out.new.items ≡ out.old.items) }
{
    if value < 128 {
        put_bytes(out, &[value as u8])
    } else if value < 256 {
        put_bytes(out, &[0xcc, value as u8])
    } else if value < 65536 {
        let [low, high] = (value as u16).to_le_bytes();
        put_bytes(out, &[0xcd, low, high])
    } else {
        let [lowest, low, high, highest] = value.to_le_bytes();
        put_bytes(out, &[0xce, lowest, low, high, highest])
    }
}

// The number is -1 - `below`, since the least `i32` has no positive counterpart.
fn put_negative(out: &mut Vec<u8>, below: u32) -> Result<(), Memory>
    requires { below < 2 ^ 31 }
    ensures ok { OnOk result (out.new.items ≡ out.old.items ++ number_bytes (negsuc below)) }
    ensures err { OnErr result (out.new.items ≡ out.old.items) }
{
    if below < 32 {
        put_bytes(out, &[u8::MAX - below as u8])
    } else if below < 128 {
        put_bytes(out, &[0xd0, u8::MAX - below as u8])
    } else if below < 32768 {
        let [low, high] = (u16::MAX - below as u16).to_le_bytes();
        put_bytes(out, &[0xd1, low, high])
    } else {
        let [lowest, low, high, highest] = (u32::MAX - below).to_le_bytes();
        put_bytes(out, &[0xd2, lowest, low, high, highest])
    }
}

pub(crate) fn put_bytes(out: &mut Vec<u8>, bytes: &[u8]) -> Result<(), Memory>
    ensures ok { OnOk result (out.new.items ≡ out.old.items ++ bytes.now) }
    ensures err { OnErr result (out.new.items ≡ out.old.items) }
{
    out.extend_from_slice(bytes)?;
    Ok(())
}

/// The `number` at a place, in any of its forms, and the place after it.
#[tactic(auto, unfolding(schema_model::specs::Reading::number_at))]
pub fn get_number(bytes: &[u8], at: usize) -> Result<(i32, usize), ReadFault>
    requires { at ≤ length bytes.now }
    ensures { result ≡ number_at bytes.now at }
{
    let (first, _) = fixed_8(bytes, at)?;
    get_form(bytes, at, first)
}

// The number whose first byte stands at `at`.
#[tactic(auto, unfolding(schema_model::specs::Reading::number_of))]
fn get_form(bytes: &[u8], at: usize, first: u8) -> Result<(i32, usize), ReadFault>
    requires { at < length bytes.now }
    ensures { result ≡ number_of bytes.now at first }
{
    let next = at + 1;
    match first {
        0x00..=0x7f => Ok((i32::from(first), next)),
        0xe0..=0xff => Ok((i32::from(first) - 256, next)),
        0xcc => unsigned_8(bytes, next),
        0xcd => unsigned_16(bytes, next),
        0xce => get_wide(bytes, at, next),
        0xd0 => signed_8(bytes, next),
        0xd1 => signed_16(bytes, next),
        0xd2 => signed_32(bytes, next),
        0xca | 0xcb => Err(ReadFault::Fractional(at)),
        0xcf | 0xd3 => Err(ReadFault::TooWide(at)),
        _ => Err(ReadFault::BadForm(at)),
    }
}

// Four bytes hold more than an `i32` does; the fault names the place of the whole value.
#[tactic(auto, unfolding(schema_model::specs::Reading::wide_at))]
fn get_wide(bytes: &[u8], value_at: usize, at: usize) -> Result<(i32, usize), ReadFault>
    requires { at ≤ length bytes.now }
    ensures { result ≡ wide_at bytes.now value_at at }
{
    let (found, next) = fixed_32(bytes, at)?;
    if found < 0x8000_0000 {
        Ok((found as i32, next))
    } else {
        Err(ReadFault::TooWide(value_at))
    }
}
