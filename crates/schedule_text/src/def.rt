//! Definitions of rooms of lines.
ghost use Rattle.std.specs.Prelude.{◌≡◌, ◌≤◌, ◌==◌, Some, IfOk, length, take};
ghost use Rattle.std.specs.List.{list_any};
ghost use Rattle.std.specs.Str.{bytes_eq};
ghost use Rattle.text_model.specs.Decimals.{decimal_within};
ghost use Rattle.text_model.specs.DefLines.{are_def_words, are_keys, comma_split, def_of, filter_of, has_name, next_def, numbers_of};
ghost use Rattle.text_model.specs.Lines.{passing};
ghost use Rattle.schedule_text.specs.Reads.{Reads, ReadsAs};
ghost use Rattle.schedule_text.specs.Words.{numbers_in};
ghost use Rattle.text_words.specs.Words.{bytes_of};

use crate::fault::LineFault;
use lists::{Seq, Text};
use room_model::{Defs, LONGEST_TIME, MOST_FILTERS, MOST_PLACES, Names, RoomDef};
use std::alloc::{AllocError, Global};
use text_words::{is_room_name, is_word, name_text, read_within};

/// How many definitions a schedule has at most.
const MOST_DEFS: usize = 256;

/// The numbers of a definition.
#[derive(Clone, Copy)]
pub struct Numbers {
    pub max: u32,
    pub seat: u64,
    pub patch: u64,
    pub keep: u64,
}

/// A number from one to another.
fn read_in(word: &[u8], low: u64, high: u64) -> Result<u64, LineFault>
    ensures value { Reads result (decimal_within low high word.now) }
    ensures bound { IfOk result (λ n. n ≤ high) }
{
    read_within(word, low, high).ok_or(LineFault::NotOfForm)
}

/// The numbers of a definition.
fn read_numbers(max: &[u8], seat: &[u8], patch: &[u8], keep: &[u8]) -> Result<Numbers, LineFault>
    ensures { ReadsAs numbers_in result (numbers_of max.now seat.now patch.now keep.now) }
{
    Ok(Numbers {
        max: read_in(max, 1, MOST_PLACES)? as u32,
        seat: read_in(seat, 1, LONGEST_TIME)?,
        patch: read_in(patch, 1, LONGEST_TIME)?,
        keep: read_in(keep, 0, LONGEST_TIME)?,
    })
}

/// Whether the words before the numbers of a definition are those of its form.
fn are_def_words(max: &[u8], seat: &[u8], patch: &[u8], keep: &[u8]) -> bool
    ensures { result ≡ are_def_words max.now seat.now patch.now keep.now }
{
    is_word(max, "max") && is_word(seat, "seat") && is_word(patch, "patch") && is_word(keep, "keep")
}

/// Whether a name is among others.
fn is_among(name: &[u8], names: &[Text]) -> bool
    ensures { result ≡ list_any (bytes_eq name.now) names.now }
{
    names.iter().any(|other| name == other.as_slice())
}

/// Names that differ, at most as many as a filter has.
fn names_of(alloc: Global, words: &[&[u8]]) -> Result<Names, LineFault>
    requires { length words.now ≤ 4 }
    ensures { Reads result (passing are_keys (Some (bytes_of words.now))) }
{
    let mut names = Seq::new(alloc);
    for word in words {
        if !is_room_name(word) {
            return Err(LineFault::NotOfForm);
        }
        if is_among(word, names.as_slice()) {
            return Err(LineFault::NotOfForm);
        }
        names.push(name_text(alloc, word)?)?;
    }
    Ok(names)
}

/// The first keys of a word with a comma between each two, at most so many.
fn first_keys(alloc: Global, word: &[u8], most: usize) -> Result<Vec<&[u8]>, AllocError>
    ensures { IfOk result (λ keys. bytes_of keys.items ≡ take most (comma_split word.now)) }
{
    word.split(|byte| *byte == b',').take(most).collect(alloc)
}

/// Keys with a comma between each two: at most four names that differ.
fn read_keys(alloc: Global, word: &[u8]) -> Result<Names, LineFault>
    ensures { Reads result (passing are_keys (Some (comma_split word.now))) }
{
    let keys = first_keys(alloc, word, MOST_FILTERS + 1)?;
    if keys.len() > MOST_FILTERS {
        return Err(LineFault::NotOfForm);
    }
    names_of(alloc, &keys)
}

/// The filter behind the numbers, where there is one.
fn read_filter(alloc: Global, words: &[&[u8]]) -> Result<Names, LineFault>
    ensures { Reads result (filter_of (bytes_of words.now)) }
{
    match words {
        [] => Ok(Seq::new(alloc)),
        [word, keys] if is_word(word, "filter") => read_keys(alloc, keys),
        _ => Err(LineFault::NotOfForm),
    }
}

/// The definition of words.
fn read_def(alloc: Global, words: &[&[u8]]) -> Result<RoomDef, LineFault>
    ensures { Reads result (def_of (bytes_of words.now)) }
{
    let [
        word,
        name,
        max_word,
        max,
        seat_word,
        seat,
        patch_word,
        patch,
        keep_word,
        keep,
        filter @ ..,
    ] = words
    else {
        return Err(LineFault::NotOfForm);
    };
    if !is_word(word, "room") || !is_room_name(name) {
        return Err(LineFault::NotOfForm);
    }
    if !are_def_words(max_word, seat_word, patch_word, keep_word) {
        return Err(LineFault::NotOfForm);
    }
    let numbers = read_numbers(max, seat, patch, keep)?;
    let filter = read_filter(alloc, filter)?;
    Ok(RoomDef {
        name: name_text(alloc, name)?,
        max: numbers.max,
        seat: numbers.seat,
        patch: numbers.patch,
        keep: numbers.keep,
        filter,
    })
}

/// A definition has a name.
fn has_name(defs: &[RoomDef], name: &Text) -> bool
    ensures { result ≡ has_name defs.now name.now }
{
    defs.iter()
        .any(|def| name.as_slice() == def.name.as_slice())
}

/// The definition of words, where it may stand behind others.
pub fn next_def(alloc: Global, defs: &Defs, words: &[&[u8]]) -> Result<RoomDef, LineFault>
    ensures { Reads result (next_def defs.now (bytes_of words.now)) }
{
    let def = read_def(alloc, words)?;
    if defs.len() >= MOST_DEFS || has_name(defs.as_slice(), &def.name) {
        return Err(LineFault::NotOfForm);
    }
    Ok(def)
}
