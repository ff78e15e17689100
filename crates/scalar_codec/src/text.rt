//! Texts, each after its length.
ghost use Rattle.std.specs.Prelude.{◌≡◌, ◌≤◌, ◌<◌, ◌^◌, ◌++◌, ℕ, List, length, Ok, Err, OnOk, OnErr, IfOk, MatchResult};
ghost use Rattle.schema_model.specs.Spelling.{text_bytes, text_head};
ghost use Rattle.schema_model.specs.Reading.{text_at, text_length, text_of};

use crate::fixed::{fixed_8, fixed_16, fixed_32};
use crate::number::put_bytes;
use schema_model::{Memory, ReadFault};

/// Appends a text: its length in the shortest form, then its bytes. An `Err` leaves `out` as it was.
pub fn put_text(out: &mut Vec<u8>, text: &str) -> Result<(), Memory>
    requires { length text.now < 2 ^ 32 }
    ensures ok { OnOk result (out.new.items ≡ out.old.items ++ text_bytes text.now) }
    // What was written is read again, whatever follows.
    ensures again { OnOk result ((more : List ℕ) →
        text_at (out.new.items ++ more) (length out.old.items) ≡ Ok (text.now, length out.new.items)) }
    ensures err { OnErr result (out.new.items ≡ out.old.items) }
{
    let before = out.len();
    put_head(out, text.len() as u32)?;
    let outcome = put_bytes(out, text.as_bytes());
    if outcome.is_err() {
        out.truncate(before);
    }
    outcome
}

fn put_head(out: &mut Vec<u8>, len: u32) -> Result<(), Memory>
    ensures ok { OnOk result (out.new.items ≡ out.old.items ++ text_head len) }
    ensures err { OnErr result (out.new.items ≡ out.old.items) }
{
    if len < 32 {
        put_bytes(out, &[0xa0 + len as u8])
    } else if len < 256 {
        put_bytes(out, &[0xd9, len as u8])
    } else if len < 65536 {
        let [low, high] = (len as u16).to_le_bytes();
        put_bytes(out, &[0xda, low, high])
    } else {
        let [lowest, low, high, highest] = len.to_le_bytes();
        put_bytes(out, &[0xdb, lowest, low, high, highest])
    }
}

/// The text at a place, in any of its forms, and the place after it.
#[tactic(auto, unfolding(schema_model::specs::Reading::text_at))]
pub fn get_text<'a>(bytes: &'a [u8], at: usize) -> Result<(&'a str, usize), ReadFault>
    requires { at ≤ length bytes.now }
    ensures { MatchResult result
        (λ read. text_at bytes.now at ≡ Ok (read.0.now, read.1))
        (λ fault. text_at bytes.now at ≡ Err fault) }
{
    let (first, _) = fixed_8(bytes, at)?;
    let (len, start) = get_length(bytes, at, first)?;
    get_bytes_as_text(bytes, at, start, len)
}

// The length of the text whose first byte stands at `at`, and the place after its head.
#[tactic(auto, unfolding(schema_model::specs::Reading::text_length))]
fn get_length(bytes: &[u8], at: usize, first: u8) -> Result<(usize, usize), ReadFault>
    requires { at < length bytes.now }
    ensures exact { result ≡ text_length bytes.now at first }
    ensures within { IfOk result (λ read. read.1 ≤ length bytes.now) }
{
    let next = at + 1;
    match first {
        0xa0..=0xbf => Ok((usize::from(first - 0xa0), next)),
        0xd9 => fixed_8(bytes, next).map(|(len, start)| (usize::from(len), start)),
        0xda => fixed_16(bytes, next).map(|(len, start)| (usize::from(len), start)),
        0xdb => fixed_32(bytes, next).map(|(len, start)| (len as usize, start)),
        _ => Err(ReadFault::BadForm(at)),
    }
}

// So many bytes from `start` on; the fault names the place of the whole value.
#[tactic(auto, unfolding(schema_model::specs::Reading::text_of))]
fn get_bytes_as_text<'a>(
    bytes: &'a [u8],
    value_at: usize,
    start: usize,
    len: usize,
) -> Result<(&'a str, usize), ReadFault>
    requires { start ≤ length bytes.now }
    ensures { MatchResult result
        (λ read. text_of bytes.now value_at start len ≡ Ok (read.0.now, read.1))
        (λ fault. text_of bytes.now value_at start len ≡ Err fault) }
{
    if bytes.len() - start < len {
        return Err(ReadFault::Short(bytes.len()));
    }
    let end = start + len;
    match std::str::from_utf8(&bytes[start..end]) {
        Ok(text) => Ok((text, end)),
        Err(_) => Err(ReadFault::BadText(value_at)),
    }
}
