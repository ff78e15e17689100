//! Words of a line, and how each is printed.
ghost use Rattle.std.specs.Prelude.{◌≡◌, ◌++◌, ◌∷◌, [], ◌<◌, OnOk, OnErr};
ghost use Rattle.std.specs.Fmt.{decimal};
ghost use Rattle.std.specs.Io.{StartsWith};
ghost use Rattle.std.specs.List.{flat_map};
ghost use Rattle.text_model.specs.Marks.{escape_digit, escaped, line, quoted, spaced};
ghost use Rattle.text_model.specs.WordForms.{plain};
ghost use Rattle.schedule_text.specs.Words.{word_text, word_texts};

use crate::hex::append_hex;
use lists::Memory;
use text_words::{append_decimal, append_signed, append_whole, is_word};

/// A word of a line, by its form.
#[derive(Clone, Copy)]
pub enum Word<'a> {
    /// These bytes as they are.
    Plain(&'a [u8]),
    /// A decimal.
    Number(u64),
    /// A decimal, behind `-` where it is below 0.
    Signed(i32),
    /// The same of up to 128 bits.
    Whole(i128),
    /// The number of a row, behind `#`.
    Link(u32),
    /// Bytes in hex, or `-` where there are none.
    Hex(&'a [u8]),
    /// A quoted text with its escapes.
    Quoted(&'a [u8]),
    /// Bytes with their escapes.
    Escaped(&'a [u8]),
}

/// The hex digit of a number below 16 in an escape.
fn upper_digit(number: u8) -> u8
    requires { number < 16 }
    ensures { result ≡ escape_digit number }
{
    if number < 10 {
        b'0' + number
    } else {
        b'A' + (number - 10)
    }
}

/// Appends a byte of a text, escaped where it has to be.
fn append_escaped(out: &mut Vec<u8>, byte: u8) -> Result<(), Memory>
    ensures ok { OnOk result (out.new.items ≡ out.old.items ++ escaped byte) }
    ensures err { OnErr result (out.new.items ≡ out.old.items) }
{
    if byte.is_ascii_graphic() && byte != b'%' {
        out.push(byte)?;
        return Ok(());
    }
    out.extend_from_slice(&[b'%', upper_digit(byte / 16), upper_digit(byte % 16)])?;
    Ok(())
}

/// Appends a text with its escapes. An `Err` may leave a part of it.
#[tactic(auto, using(lists::proofs::Prefixes::starts_after, lists::proofs::Prefixes::starts_with_prefix))]
fn append_escapes(out: &mut Vec<u8>, text: &[u8]) -> Result<(), Memory>
    ensures ok { OnOk result (out.new.items ≡ out.old.items ++ flat_map escaped text.now) }
    ensures err { OnErr result (StartsWith out.new.items out.old.items) }
{
    for byte in text {
        append_escaped(out, *byte)?;
    }
    Ok(())
}

/// Appends a quoted word. An `Err` may leave a part of it.
#[tactic(auto, using(lists::proofs::Prefixes::starts_after, lists::proofs::Prefixes::starts_with_prefix))]
pub fn append_quoted(out: &mut Vec<u8>, text: &[u8]) -> Result<(), Memory>
    ensures ok { OnOk result (out.new.items ≡ out.old.items ++ quoted text.now) }
    ensures err { OnErr result (StartsWith out.new.items out.old.items) }
{
    out.push(b'\'')?;
    append_escapes(out, text)
}

/// Appends a plain word. An `Err` may leave a part of it.
#[tactic(auto, using(lists::proofs::Prefixes::starts_after, lists::proofs::Prefixes::starts_with_prefix))]
pub fn append_plain(out: &mut Vec<u8>, bytes: &[u8]) -> Result<(), Memory>
    ensures ok { OnOk result (out.new.items ≡ out.old.items ++ plain bytes.now) }
    ensures err { OnErr result (StartsWith out.new.items out.old.items) }
{
    if bytes.is_empty() {
        return Ok(out.push(b'-')?);
    }
    if is_word(bytes, "-") {
        return Ok(out.extend_from_slice(b"%2D")?);
    }
    append_escapes(out, bytes)
}

/// Appends the number of a row, behind `#`. An `Err` may leave a part of it.
#[tactic(auto, using(lists::proofs::Prefixes::starts_after, lists::proofs::Prefixes::starts_with_prefix))]
fn append_link(out: &mut Vec<u8>, number: u32) -> Result<(), Memory>
    ensures ok { OnOk result (out.new.items ≡ out.old.items ++ 35 ∷ decimal number) }
    ensures err { OnErr result (StartsWith out.new.items out.old.items) }
{
    out.push(b'#')?;
    append_decimal(out, u64::from(number))
}

/// Appends a word. An `Err` may leave a part of it.
pub fn append_word(out: &mut Vec<u8>, word: Word) -> Result<(), Memory>
    ensures ok { OnOk result (out.new.items ≡ out.old.items ++ word_text word.entry) }
    ensures err { OnErr result (StartsWith out.new.items out.old.items) }
{
    match word {
        Word::Plain(text) => Ok(out.extend_from_slice(text)?),
        Word::Number(number) => append_decimal(out, number),
        Word::Signed(number) => append_signed(out, number),
        Word::Whole(number) => append_whole(out, number),
        Word::Link(number) => append_link(out, number),
        Word::Hex(bytes) => append_hex(out, bytes),
        Word::Quoted(text) => append_quoted(out, text),
        Word::Escaped(bytes) => append_plain(out, bytes),
    }
}

/// Appends a line. An `Err` may leave a part of it.
#[tactic(auto, using(lists::proofs::Prefixes::starts_after, lists::proofs::Prefixes::starts_with_prefix))]
fn append_words(out: &mut Vec<u8>, words: &[Word]) -> Result<(), Memory>
    ensures ok { OnOk result (out.new.items ≡ out.old.items ++ line (word_texts words.now)) }
    ensures err { OnErr result (StartsWith out.new.items out.old.items) }
{
    for (index, word) in words.iter().enumerate() {
        if index > 0 {
            out.push(b' ')?;
        }
        append_word(out, *word)?;
    }
    out.push(b'\n')?;
    Ok(())
}

/// Appends a line. An `Err` leaves `out` as it was.
pub fn append_line(out: &mut Vec<u8>, words: &[Word]) -> Result<(), Memory>
    ensures ok { OnOk result (out.new.items ≡ out.old.items ++ line (word_texts words.now)) }
    ensures err { OnErr result (out.new.items ≡ out.old.items) }
{
    let before = out.len();
    let outcome = append_words(out, words);
    if outcome.is_err() {
        out.truncate(before);
    }
    outcome
}

/// Appends a word. An `Err` leaves `out` as it was.
pub fn append_one(out: &mut Vec<u8>, word: Word) -> Result<(), Memory>
    ensures ok { OnOk result (out.new.items ≡ out.old.items ++ word_text word.entry) }
    ensures err { OnErr result (out.new.items ≡ out.old.items) }
{
    let before = out.len();
    let outcome = append_word(out, word);
    if outcome.is_err() {
        out.truncate(before);
    }
    outcome
}
