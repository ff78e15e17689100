//! What a lexeme is, without what it says.

/// The kinds of lexemes, and the end of the text.
#[derive(Clone, Copy, Drop)]
pub(crate) enum Mark {
    OpenBrace,
    CloseBrace,
    OpenBracket,
    CloseBracket,
    Comma,
    Colon,
    Text,
    // A number, a truth or `null`.
    Word,
    // What is no lexeme of JSON.
    Bad,
    End,
}
