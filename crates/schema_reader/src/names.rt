//! Which words are names of fields and of classes.
ghost use Rattle.std.specs.Prelude.{◌≡◌};
ghost use Rattle.std.specs.List.{list_all};
ghost use Rattle.text_model.specs.Marks.{is_class_name, is_field_name, is_name_byte};

use crate::kinds::kind_of_word;
use text_words::{has_name_length, is_one_of};

/// Whether a byte is a letter, a digit or `_`.
fn is_name_byte(byte: u8) -> bool
    ensures { result ≡ is_name_byte byte }
{
    byte.is_ascii_alphanumeric() || byte == b'_'
}

/// Whether all bytes of a word are letters, digits or `_`.
fn has_name_bytes(word: &[u8]) -> bool
    ensures { result ≡ list_all is_name_byte word.now }
{
    word.iter().all(|byte| is_name_byte(*byte))
}

/// The words for shapes, which name no class.
const SHAPES: [&[u8]; 3] = [b"map", b"array", b"set"];

/// Whether a word may name a field.
#[tactic(auto, using(crate::proofs::KindWords::no_kind_word))]
pub fn is_field_name(word: &[u8]) -> bool
    ensures { result ≡ is_field_name word.now }
{
    has_name_length(word) && has_name_bytes(word) && kind_of_word(word).is_none()
}

/// Whether a word may name a class.
pub fn is_class_name(word: &[u8]) -> bool
    ensures { result ≡ is_class_name word.now }
{
    is_field_name(word) && !is_one_of(&SHAPES, word)
}
