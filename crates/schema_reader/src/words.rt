//! Words of kinds, of items and of tags.
ghost use Rattle.std.specs.Prelude.{◌≡◌};
ghost use Rattle.text_model.specs.Marks.{is_one_of};
ghost use Rattle.text_model.specs.SchemaLines.{fractional_words, is_item_word, is_tag_word};

use crate::kinds::kind_of_word;
use crate::names::is_class_name;
use text_words::{is_decimal, is_one_of, is_word};

/// The words for kinds that are refused by name.
const FRACTIONAL: [&[u8]; 2] = [b"float32", b"float64"];

/// Whether a word is that of a floating kind.
pub fn is_fractional(word: &[u8]) -> bool
    ensures { result ≡ is_one_of fractional_words word.now }
{
    is_one_of(&FRACTIONAL, word)
}

/// Whether a word can stand for a tag: a decimal, or one behind a `-` that isn't 0.
pub fn is_tag_word(word: &[u8]) -> bool
    ensures { result ≡ is_tag_word word.now }
{
    match word {
        [b'-', digits @ ..] => is_decimal(digits) && !is_word(digits, "0"),
        _ => is_decimal(word),
    }
}

/// Whether a word can stand for an item: of a kind, or the name of a class.
pub fn is_item_word(word: &[u8]) -> bool
    ensures { result ≡ is_item_word word.now }
{
    kind_of_word(word).is_some() || is_class_name(word)
}
