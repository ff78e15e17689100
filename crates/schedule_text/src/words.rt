//! Words for texts, values and message kinds.
ghost use Rattle.std.specs.Prelude.{◌≡◌, ◌<◌, ◌^◌, Some, IfOk, true};
ghost use Rattle.percent_encoding.specs.Percent.{percent_decode as decoded_of};
ghost use Rattle.text_model.specs.Lines.{passing};
ghost use Rattle.text_model.specs.WordForms.{are_bytes, id_of, is_text, kind_of, plain_bytes, plain_of, plain_text_of, quoted_of, truth_of, value_of};
ghost use Rattle.schedule_text.specs.Reads.{Reads};

use crate::fault::LineFault;
use crate::number::read_ref;
use crate::word::{append_plain, append_quoted};
use frame_model::MsgKind;
use lists::{Bytes, Memory, Text, TextFault};
use percent_encoding::percent_decode;
use room_model::is_short_kind;
use schema_model::{Id, RefNum, Value};
use std::alloc::Global;
use text_words::{is_word, read_id, read_signed, read_whole};

/// Bytes are below 256. It does nothing else than to say so.
fn know_bytes(bytes: &[u8])
    ensures { are_bytes bytes.now ≡ true }
{
    let _bytes = bytes;
}

/// Bytes as a text, where they are UTF-8.
pub fn text_of(alloc: Global, bytes: &[u8]) -> Result<Text, LineFault>
    ensures { Reads result (passing is_text (Some bytes.now)) }
{
    know_bytes(bytes);
    match Text::from_bytes(alloc, bytes) {
        Ok(text) => Ok(text),
        Err(TextFault::NotUtf8) => Err(LineFault::NotOfForm),
        Err(TextFault::Memory) => Err(LineFault::Memory),
    }
}

/// What stands for a word with its escapes, spelled rightly or not.
fn decoded(alloc: Global, word: &[u8]) -> Result<Vec<u8>, Memory>
    ensures { IfOk result (λ bytes. bytes.items ≡ decoded_of word.now) }
{
    let mut bytes = Vec::new(alloc);
    percent_decode(word).append_to(&mut bytes)?;
    Ok(bytes)
}

/// The bytes that a plain word may stand for, spelled rightly or not.
fn plain_bytes(alloc: Global, word: &[u8]) -> Result<Vec<u8>, Memory>
    ensures { IfOk result (λ bytes. bytes.items ≡ plain_bytes word.now) }
{
    if is_word(word, "-") {
        return Ok(Vec::new(alloc));
    }
    decoded(alloc, word)
}

/// The bytes of a plain word: it is the one word of them.
pub fn read_plain(alloc: Global, word: &[u8]) -> Result<Bytes, LineFault>
    ensures { Reads result (plain_of word.now) }
{
    let bytes = plain_bytes(alloc, word)?;
    know_bytes(&bytes);
    let mut spelled = Vec::new(alloc);
    append_plain(&mut spelled, &bytes)?;
    if spelled.as_slice() == word {
        Ok(Bytes::from_vec(bytes))
    } else {
        Err(LineFault::NotOfForm)
    }
}

/// The text of a plain word.
pub fn read_plain_text(alloc: Global, word: &[u8]) -> Result<Text, LineFault>
    ensures { Reads result (plain_text_of word.now) }
{
    let bytes = read_plain(alloc, word)?;
    text_of(alloc, bytes.as_slice())
}

/// The text of a quoted word: it is the one word of it.
pub fn read_quoted(alloc: Global, word: &[u8]) -> Result<Text, LineFault>
    ensures { Reads result (quoted_of word.now) }
{
    let [_, inner @ ..] = word else {
        return Err(LineFault::NotOfForm);
    };
    let bytes = decoded(alloc, inner)?;
    let mut spelled = Vec::new(alloc);
    append_quoted(&mut spelled, &bytes)?;
    if spelled.as_slice() != word {
        return Err(LineFault::NotOfForm);
    }
    text_of(alloc, &bytes)
}

/// The id that a word is.
pub fn read_name(word: &[u8]) -> Result<Id, LineFault>
    ensures { Reads result (id_of word.now) }
{
    read_id(word).ok_or(LineFault::NotOfForm)
}

/// `true` or `false`.
fn read_truth(word: &[u8]) -> Result<Value, LineFault>
    ensures { Reads result (truth_of word.now) }
{
    if is_word(word, "true") {
        return Ok(Value::Truth(true));
    }
    if is_word(word, "false") {
        return Ok(Value::Truth(false));
    }
    Err(LineFault::NotOfForm)
}

/// A value: a decimal of at most 128 bits, a quoted word, `true`, `false` or `#REF`.
pub fn read_value(alloc: Global, word: &[u8]) -> Result<Value, LineFault>
    ensures { Reads result (value_of word.now) }
{
    match word {
        [] => Err(LineFault::NotOfForm),
        [b'\'', ..] => Ok(Value::Str(read_quoted(alloc, word)?)),
        [b'#', digits @ ..] => Ok(Value::Link(RefNum(read_ref(digits)?))),
        [b't' | b'f', ..] => read_truth(word),
        _ => match read_whole(word) {
            Some(number) => Ok(Value::Whole(number)),
            None => Err(LineFault::NotOfForm),
        },
    }
}

/// A message kind: a quoted word for fewer than 2^32 bytes, or a decimal of 32 bits.
pub fn read_kind(alloc: Global, word: &[u8]) -> Result<MsgKind, LineFault>
    ensures { Reads result (kind_of word.now) }
{
    match word {
        [] => Err(LineFault::NotOfForm),
        [b'\'', ..] => {
            let kind = MsgKind::Name(read_quoted(alloc, word)?);
            if is_short_kind(&kind) {
                Ok(kind)
            } else {
                Err(LineFault::NotOfForm)
            }
        }
        _ => match read_signed(word) {
            Some(number) => Ok(MsgKind::Num(number)),
            None => Err(LineFault::NotOfForm),
        },
    }
}
