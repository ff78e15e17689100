//! Numbers of words.
ghost use Rattle.std.specs.Prelude.{◌≡◌, ◌≤◌, ◌<◌, ◌^◌, IfSome};
ghost use Rattle.std.specs.Option.{option_map};
ghost use Rattle.text_model.specs.Acts.{code_of, field_of_word, keep_of, ref_of};
ghost use Rattle.text_model.specs.Decimals.{decimal_below};
ghost use Rattle.text_model.specs.Events.{number_of_word};
ghost use Rattle.text_model.specs.WordForms.{tag_of_word};
ghost use Rattle.schedule_text.specs.Reads.{Reads};

use crate::fault::LineFault;
use room_model::LONGEST_TIME;
use schema_model::{Pair, RefNum, Tag};
use text_words::{is_word, read_below, read_byte, read_decimal, read_within};

/// A number of 64 bits.
pub fn read_number(word: &[u8]) -> Result<u64, LineFault>
    ensures { Reads result (number_of_word word.now) }
{
    read_decimal(word).ok_or(LineFault::NotOfForm)
}

/// A number of 32 bits, as of rows, classes and positions.
pub fn read_ref(word: &[u8]) -> Result<u32, LineFault>
    ensures { Reads result (ref_of word.now) }
{
    match read_below(word, 1 << 32) {
        Some(number) => Ok(number as u32),
        None => Err(LineFault::NotOfForm),
    }
}

/// A number of 8 bits, as of fields.
pub fn read_field(word: &[u8]) -> Result<u8, LineFault>
    ensures { Reads result (field_of_word word.now) }
{
    read_byte(word).ok_or(LineFault::NotOfForm)
}

/// The code of a kick: 1000, or 4000 to 4999.
pub fn read_code(word: &[u8]) -> Result<u16, LineFault>
    ensures { Reads result (code_of word.now) }
{
    match read_below(word, 1 << 16) {
        Some(code) if code == 1000 || (4000 <= code && code <= 4999) => Ok(code as u16),
        _ => Err(LineFault::NotOfForm),
    }
}

/// For how many ms a seat is kept, an hour at most.
pub fn read_keep(word: &[u8]) -> Result<u64, LineFault>
    ensures { Reads result (keep_of word.now) }
{
    read_within(word, 0, LONGEST_TIME).ok_or(LineFault::NotOfForm)
}

/// A tag: `-1` for the default one, or 0 to 255.
pub fn read_view_tag(word: &[u8]) -> Result<Tag, LineFault>
    ensures { Reads result (tag_of_word word.now) }
{
    if is_word(word, "-1") {
        return Ok(Tag(-1));
    }
    match read_byte(word) {
        Some(number) => Ok(Tag(i16::from(number))),
        None => Err(LineFault::NotOfForm),
    }
}
