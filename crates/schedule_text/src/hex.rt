//! Words in hex, read and written byte by byte.
ghost use Rattle.std.specs.Prelude.{◌≡◌, ◌++◌, ◌∷◌, [], ◌<◌, OnOk, OnErr};
ghost use Rattle.std.specs.Io.{StartsWith};
ghost use Rattle.std.specs.List.{flat_map};
ghost use Rattle.text_model.specs.Marks.{hex_byte, hex_digit, hex_word};
ghost use Rattle.text_model.specs.WordForms.{hex_of};
ghost use Rattle.schedule_text.specs.Hex.{byte_of, digit_of, pairs_of};
ghost use Rattle.schedule_text.specs.Reads.{Reads, ReadsAs};

use crate::fault::LineFault;
use lists::{Bytes, Memory};
use std::alloc::Global;
use text_words::is_word;

/// The number of a digit; a letter is small.
fn digit_of(digit: u8) -> Option<u8>
    ensures { result ≡ digit_of digit }
{
    match digit {
        b'0'..=b'9' => Some(digit - b'0'),
        b'a'..=b'f' => Some(digit - b'a' + 10),
        _ => None,
    }
}

/// The byte of two digits.
fn byte_of(high: u8, low: u8) -> Option<u8>
    ensures { result ≡ byte_of high low }
{
    Some(16 * digit_of(high)? + digit_of(low)?)
}

/// The bytes of pairs of digits.
fn read_pairs(alloc: Global, digits: &[u8]) -> Result<Vec<u8>, LineFault>
    ensures { ReadsAs (λ bytes. bytes.items) result (pairs_of digits.now) }
{
    let mut bytes = Vec::with_capacity(alloc, digits.len() / 2)?;
    let mut rest = digits;
    while let [high, low, behind @ ..] = rest {
        let Some(byte) = byte_of(*high, *low) else {
            return Err(LineFault::NotOfForm);
        };
        if bytes.push(byte).is_err() {
            return Err(LineFault::Memory);
        }
        rest = behind;
    }
    if rest.is_empty() {
        Ok(bytes)
    } else {
        Err(LineFault::NotOfForm)
    }
}

/// The bytes of a word in hex: it is the one word of them.
pub fn read_hex(alloc: Global, word: &[u8]) -> Result<Bytes, LineFault>
    ensures { Reads result (hex_of word.now) }
{
    if word.is_empty() {
        return Err(LineFault::NotOfForm);
    }
    if is_word(word, "-") {
        return Ok(Bytes::from_vec(Vec::new(alloc)));
    }
    Ok(Bytes::from_vec(read_pairs(alloc, word)?))
}

/// The digit of a number below 16.
fn hex_digit(number: u8) -> u8
    requires { number < 16 }
    ensures { result ≡ hex_digit number }
{
    if number < 10 {
        b'0' + number
    } else {
        b'a' + (number - 10)
    }
}

// Appends two digits for each byte, one byte after another. An `Err` may leave a part of them.
#[tactic(auto, using(lists::proofs::Prefixes::starts_after, lists::proofs::Prefixes::starts_with_prefix))]
fn append_each(out: &mut Vec<u8>, bytes: &[u8]) -> Result<(), Memory>
    ensures ok { OnOk result (out.new.items ≡ out.old.items ++ flat_map hex_byte bytes.now) }
    ensures err { OnErr result (StartsWith out.new.items out.old.items) }
{
    for byte in bytes {
        out.extend_from_slice(&[hex_digit(byte / 16), hex_digit(byte % 16)])?;
    }
    Ok(())
}

// Appends the digits of four bytes.
fn append_four(out: &mut Vec<u8>, a: u8, b: u8, c: u8, d: u8) -> Result<(), Memory>
    ensures ok { OnOk result (out.new.items ≡ out.old.items ++ flat_map hex_byte (a ∷ b ∷ c ∷ d ∷ [])) }
    ensures err { OnErr result (out.new.items ≡ out.old.items) }
{
    out.extend_from_slice(&[
        hex_digit(a / 16),
        hex_digit(a % 16),
        hex_digit(b / 16),
        hex_digit(b % 16),
        hex_digit(c / 16),
        hex_digit(c % 16),
        hex_digit(d / 16),
        hex_digit(d % 16),
    ])?;
    Ok(())
}

/// Appends two digits for each byte. An `Err` may leave a part of them.
fn append_pairs(out: &mut Vec<u8>, bytes: &[u8]) -> Result<(), Memory>
    ensures ok { OnOk result (out.new.items ≡ out.old.items ++ flat_map hex_byte bytes.now) }
    ensures err { OnErr result (StartsWith out.new.items out.old.items) }
{
    let mut rest = bytes;
    while let [a, b, c, d, behind @ ..] = rest {
        append_four(out, *a, *b, *c, *d)?;
        rest = behind;
    }
    append_each(out, rest)
}

/// Appends bytes in hex, or `-` where there are none. An `Err` may leave a part of them.
pub fn append_hex(out: &mut Vec<u8>, bytes: &[u8]) -> Result<(), Memory>
    ensures ok { OnOk result (out.new.items ≡ out.old.items ++ hex_word bytes.now) }
    ensures err { OnErr result (StartsWith out.new.items out.old.items) }
{
    if bytes.is_empty() {
        return Ok(out.push(b'-')?);
    }
    append_pairs(out, bytes)
}
