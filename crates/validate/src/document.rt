//! Whether bytes are JSON, by descent from a value into what it holds.
ghost use Rattle.std.specs.Prelude.{◌≡◌};
ghost use Rattle.json.specs.Lex.{between, lex, tokens};
ghost use Rattle.json.specs.Reads.{skip_items, skip_members};
ghost use Rattle.validate.specs.Json.{is_json};
ghost use Rattle.validate.specs.Documents.{is_document, member_from, tokens_after, value_from};

use crate::lexer::lexeme;
use crate::mark::Mark;
use crate::text::is_text;

/// How deep arrays and objects may nest.
pub const MAX_DEPTH: u32 = 127;

/// Whether bytes are a JSON text (RFC 8259) with arrays and objects nested no deeper than `MAX_DEPTH`. It takes no memory.
pub fn is_json(bytes: &[u8]) -> bool
    ensures { result ≡ is_json bytes.now }
{
    is_text(bytes) && is_document(bytes, MAX_DEPTH)
}

// Whether one value stands in the text, and nothing behind it.
fn is_document(text: &[u8], levels: u32) -> bool
    ensures { result ≡ is_document levels text.now }
{
    let (mark, rest) = lexeme(text);
    match value(mark, rest, levels) {
        Some(left) => matches!(lexeme(left).0, Mark::End),
        None => false,
    }
}

// What follows the value whose first lexeme has this mark. Behind it stands `rest`.
#[cycle(levels)]
fn value(mark: Mark, rest: &[u8], levels: u32) -> Option<&[u8]>
    ensures { tokens_after result ≡ value_from mark levels (lex between rest.now) }
{
    match mark {
        Mark::Word => Some(rest),
        Mark::Text => if let Mark::Colon = lexeme(rest).0 {
            None
        } else {
            Some(rest)
        },
        Mark::OpenBracket => if levels == 0 {
            None
        } else {
            items(rest, levels - 1)
        },
        Mark::OpenBrace => if levels == 0 {
            None
        } else {
            members(rest, levels - 1)
        },
        _ => None,
    }
}

// What follows the bracket that closes an array, from behind the one that opens it.
#[cycle(levels)]
fn items(text: &[u8], levels: u32) -> Option<&[u8]>
    ensures { tokens_after result ≡ skip_items levels (tokens text.now) }
{
    let (mark, rest) = lexeme(text);
    if let Mark::CloseBracket = mark {
        return Some(rest);
    }
    let mut left = value(mark, rest, levels)?;
    loop {
        let (next, behind) = lexeme(left);
        match next {
            Mark::CloseBracket => return Some(behind),
            Mark::Comma => {
                let (item, rest) = lexeme(behind);
                left = value(item, rest, levels)?;
            }
            _ => return None,
        }
    }
}

// What follows the brace that closes an object, from behind the one that opens it.
#[cycle(levels)]
fn members(text: &[u8], levels: u32) -> Option<&[u8]>
    ensures { tokens_after result ≡ skip_members levels (tokens text.now) }
{
    let (mark, rest) = lexeme(text);
    if let Mark::CloseBrace = mark {
        return Some(rest);
    }
    let mut left = member(mark, rest, levels)?;
    loop {
        let (next, behind) = lexeme(left);
        match next {
            Mark::CloseBrace => return Some(behind),
            Mark::Comma => {
                let (key, rest) = lexeme(behind);
                left = member(key, rest, levels)?;
            }
            _ => return None,
        }
    }
}

// What follows a key, a colon and a value.
#[cycle(levels)]
fn member(mark: Mark, rest: &[u8], levels: u32) -> Option<&[u8]>
    ensures { tokens_after result ≡ member_from mark levels (lex between rest.now) }
{
    let Mark::Text = mark else {
        return None;
    };
    let (Mark::Colon, text) = lexeme(rest) else {
        return None;
    };
    let (first, left) = lexeme(text);
    value(first, left, levels)
}
