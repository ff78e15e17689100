//! Numbers and the three literals. What reads a part gives what follows it.
ghost use Rattle.std.specs.Prelude.{◌≡◌, ◌||◌, ◌&&◌, length, drop, nat_eq, option_map};
ghost use Rattle.std.specs.List.{prefix_len, starts_with};
ghost use Rattle.std.specs.Char.{is_ascii_digit};
ghost use Rattle.json.specs.Align.{is_good};
ghost use Rattle.json.specs.Word.{after_digits, after_exponent, after_fraction, after_minus, after_number, after_sign, after_whole, ends_word, head, is_operator, is_space, number_before, word};

// The first byte, or a space at the end of the text.
fn head(text: &[u8]) -> u8
    ensures { result ≡ head text.now }
{
    match text {
        [first, ..] => *first,
        [] => b' ',
    }
}

// What follows the first byte.
fn tail(text: &[u8]) -> &[u8]
    ensures { result.now ≡ drop 1 text.now }
{
    match text {
        [_, rest @ ..] => rest,
        [] => text,
    }
}

// A bracket, a brace, a comma or a colon.
fn is_operator(byte: u8) -> bool
    ensures { result ≡ is_operator byte }
{
    matches!(byte, b'{' | b'}' | b'[' | b']' | b':' | b',')
}

/// White space between tokens.
pub(crate) fn is_space(byte: u8) -> bool
    ensures { result ≡ is_space byte }
{
    matches!(byte, b' ' | b'\t' | b'\n' | b'\r')
}

/// Whether a number or a literal may end before this byte.
pub(crate) fn is_delimiter(byte: u8) -> bool
    ensures { result ≡ (is_operator byte || is_space byte) }
{
    is_operator(byte) || is_space(byte)
}

/// Whether a number or one of the literals stands first, up to a delimiter or the end.
#[tactic(auto, unfolding(json::specs::Word::word))]
pub(crate) fn is_word(text: &[u8]) -> bool
    ensures { result ≡ is_good (word text.now) }
{
    match head(text) {
        b't' => is_literal(b"true", text),
        b'f' => is_literal(b"false", text),
        b'n' => is_literal(b"null", text),
        _ => is_number(text),
    }
}

// Whether a literal of this name stands first.
fn is_literal(name: &[u8], text: &[u8]) -> bool
    ensures { result ≡ (starts_with nat_eq text.now name.now && ends_word (drop (length name.now) text.now)) }
{
    text.starts_with(name) && is_delimiter(head(&text[name.len()..]))
}

// Whether a number stands first.
fn is_number(text: &[u8]) -> bool
    ensures { result ≡ is_good (number_before text.now (after_number text.now)) }
{
    match after_number(text) {
        Some(rest) => is_delimiter(head(rest)),
        None => false,
    }
}

#[tactic(auto, unfolding(json::specs::Word::after_number))]
fn after_number(text: &[u8]) -> Option<&[u8]>
    ensures { option_map (λ r. r.now) result ≡ after_number text.now }
{
    let whole = after_whole(after_minus(text))?;
    let fraction = after_fraction(whole)?;
    after_exponent(fraction)
}

fn after_minus(text: &[u8]) -> &[u8]
    ensures { result.now ≡ after_minus text.now }
{
    if head(text) == b'-' { tail(text) } else { text }
}

fn after_whole(text: &[u8]) -> Option<&[u8]>
    ensures { option_map (λ r. r.now) result ≡ after_whole text.now }
{
    if head(text) == b'0' {
        Some(tail(text))
    } else {
        after_digits(text)
    }
}

fn after_fraction(text: &[u8]) -> Option<&[u8]>
    ensures { option_map (λ r. r.now) result ≡ after_fraction text.now }
{
    if head(text) == b'.' {
        after_digits(tail(text))
    } else {
        Some(text)
    }
}

fn after_exponent(text: &[u8]) -> Option<&[u8]>
    ensures { option_map (λ r. r.now) result ≡ after_exponent text.now }
{
    let first = head(text);
    if first == b'e' || first == b'E' {
        after_digits(after_sign(tail(text)))
    } else {
        Some(text)
    }
}

fn after_sign(text: &[u8]) -> &[u8]
    ensures { result.now ≡ after_sign text.now }
{
    let first = head(text);
    if first == b'-' || first == b'+' {
        tail(text)
    } else {
        text
    }
}

// At least one digit stands first.
fn after_digits(text: &[u8]) -> Option<&[u8]>
    ensures { option_map (λ r. r.now) result ≡ after_digits text.now }
{
    let [first, rest @ ..] = text else {
        return None;
    };
    if first.is_ascii_digit() {
        Some(past_digits(rest))
    } else {
        None
    }
}

fn past_digits(text: &[u8]) -> &[u8]
    ensures { result.now ≡ drop (prefix_len is_ascii_digit text.now) text.now }
{
    let mut left = text;
    while let [first, rest @ ..] = left {
        if !first.is_ascii_digit() {
            return left;
        }
        left = rest;
    }
    left
}
