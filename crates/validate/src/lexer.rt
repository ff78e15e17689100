//! The lexeme that stands first in a text, and what follows it.
ghost use Rattle.std.specs.Prelude.{◌≡◌, ◌∷◌, false, get_or};
ghost use Rattle.json.specs.Lex.{between, class, in_word, lex, other};
ghost use Rattle.json.specs.Word.{is_space};
ghost use Rattle.validate.specs.Marks.{IsFirst};

use crate::mark::Mark;
use crate::quoted::after_quoted;
use crate::word::{is_delimiter, is_space, is_word};

/// The first lexeme behind white space, and what follows it. Behind a bad one any rest is given.
pub(crate) fn lexeme(text: &[u8]) -> (Mark, &[u8])
    ensures { IsFirst (lex between text.now) result.0 (lex between result.1.now) }
{
    let prefix = past_spaces(text);
    let [first, rest @ ..] = prefix else {
        return (Mark::End, prefix);
    };
    match *first {
        b'{' => (Mark::OpenBrace, rest),
        b'}' => (Mark::CloseBrace, rest),
        b'[' => (Mark::OpenBracket, rest),
        b']' => (Mark::CloseBracket, rest),
        b',' => (Mark::Comma, rest),
        b':' => (Mark::Colon, rest),
        b'\\' => (Mark::Bad, rest),
        b'"' => match after_quoted(rest) {
            Some(left) => (Mark::Text, left),
            None => (Mark::Bad, rest),
        },
        _ => if is_word(prefix) {
            (Mark::Word, past_word(rest))
        } else {
            (Mark::Bad, rest)
        },
    }
}

// What follows white space.
fn past_spaces(text: &[u8]) -> &[u8]
    ensures same { lex between result.now ≡ lex between text.now }
    ensures solid { is_space (get_or result.now 0 0) ≡ false }
{
    let mut left = text;
    while let [first, rest @ ..] = left {
        if !is_space(*first) {
            return left;
        }
        left = rest;
    }
    left
}

// What follows a word, up to where it has to end.
fn past_word(text: &[u8]) -> &[u8]
    ensures { lex in_word text.now ≡ lex between result.now }
{
    let mut left = text;
    while let [first, rest @ ..] = left {
        if is_delimiter(*first) {
            return left;
        }
        left = rest;
    }
    left
}
