//! Which words are names, and which are ids.
ghost use Rattle.std.specs.Prelude.{◌≡◌, IfOk, Some, None, if◌then◌else◌, true};
ghost use Rattle.std.specs.List.{list_all, list_any};
ghost use Rattle.std.specs.Str.{bytes_eq};
ghost use Rattle.text_model.specs.Lines.{is_word};
ghost use Rattle.text_model.specs.Marks.{has_name_length, is_id, is_id_byte, is_room_name};

use lists::{Memory, Text, TextFault};
use schema_model::{Id, has_id_bytes, id_of};
use std::alloc::Global;

/// Whether a word is this one.
pub fn is_word(word: &[u8], text: &str) -> bool
    ensures { result ≡ is_word text.now word.now }
{
    word == text.as_bytes()
}

/// Whether a word is one of these.
pub fn is_one_of(words: &[&[u8]], word: &[u8]) -> bool
    ensures { result ≡ list_any (λ w. bytes_eq word.now w.now) words.now }
{
    words.iter().any(|other| word == *other)
}

/// Whether a word has 1 to 64 bytes.
pub fn has_name_length(word: &[u8]) -> bool
    ensures { result ≡ has_name_length word.now }
{
    1 <= word.len() && word.len() <= 64
}

/// Whether a word may name a room.
pub fn is_room_name(word: &[u8]) -> bool
    ensures { result ≡ is_room_name word.now }
{
    has_name_length(word) && has_id_bytes(word)
}

/// The id that a word is, if it is one.
pub fn read_id(word: &[u8]) -> Option<Id>
    ensures { result ≡ (if is_id word.now then Some word.now else None) }
{
    id_of(word)
}

/// A name, or the word of a kind, as a text. Its bytes are all ASCII.
#[tactic(auto, using(schema_model::proofs::IdLaws::utf8_from_id_bytes))]
pub fn name_text(alloc: Global, name: &[u8]) -> Result<Text, Memory>
    requires { list_all is_id_byte name.now ≡ true }
    ensures { IfOk result (λ text. text ≡ name.now) }
{
    match Text::from_bytes(alloc, name) {
        Ok(text) => Ok(text),
        Err(TextFault::Memory) => Err(Memory),
        Err(TextFault::NotUtf8) => unreachable!(),
    }
}
