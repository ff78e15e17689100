//! Numbers of a fixed width, low byte first.
ghost use Rattle.std.specs.Prelude.{◌≡◌, ◌≤◌, ◌<◌, ◌^◌, ◌++◌, ℕ, List, length, IsTrue, IfOk, Ok, OnOk, OnErr};
ghost use Rattle.std.specs.Int.{w8, w16, w32, w64, to_le_bytes};
ghost use Rattle.schema_model.specs.Reading.{fixed_at, signed_at, unsigned_at};
ghost use Rattle.scalar_codec.specs.Widths.{is_width, width_of, low_at};

use crate::number::put_bytes;
use schema_model::{Memory, ReadFault};

/// Appends a number in `W` bytes, lowest first. An `Err` leaves `out` as it was.
pub fn put_fixed<const W: usize>(out: &mut Vec<u8>, low: u64) -> Result<(), Memory>
    requires width { IsTrue (is_width W) }
    requires fits { low < 256 ^ W }
    ensures ok { OnOk result (out.new.items ≡ out.old.items ++ to_le_bytes (width_of W) low) }
    // What was written is read again, whatever follows.
    ensures again { OnOk result ((more : List ℕ) →
        fixed_at (width_of W) (out.new.items ++ more) (length out.old.items) ≡ Ok (low, length out.new.items)) }
    ensures err { OnErr result (out.new.items ≡ out.old.items) }
{
    put_bytes(out, &low.to_le_bytes()[..W])
}

/// The number of `W` bytes at a place. The only fault is `Short`.
pub fn get_fixed<const W: usize>(bytes: &[u8], at: usize) -> Result<u64, ReadFault>
    requires width { IsTrue (is_width W) }
    requires place { at ≤ length bytes.now }
    ensures { result ≡ low_at W bytes.now at }
{
    let (low, _) = low_and_next::<W>(bytes, at)?;
    Ok(low)
}

// The number of `W` bytes at a place, and the place after it.
pub(crate) fn low_and_next<const W: usize>(
    bytes: &[u8],
    at: usize,
) -> Result<(u64, usize), ReadFault>
    requires width { IsTrue (is_width W) }
    requires place { at ≤ length bytes.now }
    ensures exact { result ≡ fixed_at (width_of W) bytes.now at }
    ensures fits { IfOk result (λ read. read.0 < 256 ^ W) }
{
    match W {
        1 => fixed_8(bytes, at).map(|(found, next)| (u64::from(found), next)),
        2 => fixed_16(bytes, at).map(|(found, next)| (u64::from(found), next)),
        4 => fixed_32(bytes, at).map(|(found, next)| (u64::from(found), next)),
        _ => fixed_64(bytes, at),
    }
}

pub(crate) fn fixed_8(bytes: &[u8], at: usize) -> Result<(u8, usize), ReadFault>
    requires { at ≤ length bytes.now }
    ensures { result ≡ fixed_at w8 bytes.now at }
{
    let Some(found) = bytes.get(at) else {
        return Err(ReadFault::Short(bytes.len()))
    };
    Ok((*found, at + 1))
}

pub(crate) fn fixed_16(bytes: &[u8], at: usize) -> Result<(u16, usize), ReadFault>
    requires { at ≤ length bytes.now }
    ensures { result ≡ fixed_at w16 bytes.now at }
{
    let Some(found) = bytes[at..].first_chunk() else {
        return Err(ReadFault::Short(bytes.len()))
    };
    Ok((u16::from_le_bytes(*found), at + 2))
}

pub(crate) fn fixed_32(bytes: &[u8], at: usize) -> Result<(u32, usize), ReadFault>
    requires { at ≤ length bytes.now }
    ensures { result ≡ fixed_at w32 bytes.now at }
{
    let Some(found) = bytes[at..].first_chunk() else {
        return Err(ReadFault::Short(bytes.len()))
    };
    Ok((u32::from_le_bytes(*found), at + 4))
}

pub(crate) fn fixed_64(bytes: &[u8], at: usize) -> Result<(u64, usize), ReadFault>
    requires { at ≤ length bytes.now }
    ensures { result ≡ fixed_at w64 bytes.now at }
{
    let Some(found) = bytes[at..].first_chunk() else {
        return Err(ReadFault::Short(bytes.len()))
    };
    Ok((u64::from_le_bytes(*found), at + 8))
}

#[tactic(auto, unfolding(schema_model::specs::Reading::unsigned_at))]
pub(crate) fn unsigned_8(bytes: &[u8], at: usize) -> Result<(i32, usize), ReadFault>
    requires { at ≤ length bytes.now }
    ensures { result ≡ unsigned_at w8 bytes.now at }
{
    let (found, next) = fixed_8(bytes, at)?;
    Ok((i32::from(found), next))
}

#[tactic(auto, unfolding(schema_model::specs::Reading::unsigned_at))]
pub(crate) fn unsigned_16(bytes: &[u8], at: usize) -> Result<(i32, usize), ReadFault>
    requires { at ≤ length bytes.now }
    ensures { result ≡ unsigned_at w16 bytes.now at }
{
    let (found, next) = fixed_16(bytes, at)?;
    Ok((i32::from(found), next))
}

#[tactic(auto, unfolding(schema_model::specs::Reading::signed_at))]
pub(crate) fn signed_8(bytes: &[u8], at: usize) -> Result<(i32, usize), ReadFault>
    requires { at ≤ length bytes.now }
    ensures { result ≡ signed_at w8 bytes.now at }
{
    let (found, next) = fixed_8(bytes, at)?;
    Ok((i32::from(found.cast_signed()), next))
}

#[tactic(auto, unfolding(schema_model::specs::Reading::signed_at))]
pub(crate) fn signed_16(bytes: &[u8], at: usize) -> Result<(i32, usize), ReadFault>
    requires { at ≤ length bytes.now }
    ensures { result ≡ signed_at w16 bytes.now at }
{
    let (found, next) = fixed_16(bytes, at)?;
    Ok((i32::from(found.cast_signed()), next))
}

#[tactic(auto, unfolding(schema_model::specs::Reading::signed_at))]
pub(crate) fn signed_32(bytes: &[u8], at: usize) -> Result<(i32, usize), ReadFault>
    requires { at ≤ length bytes.now }
    ensures { result ≡ signed_at w32 bytes.now at }
{
    let (found, next) = fixed_32(bytes, at)?;
    Ok((found.cast_signed(), next))
}
