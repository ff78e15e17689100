//! Texts in quotes: where they end. What they say is not kept.
ghost use Rattle.std.specs.Prelude.{◌≡◌, ◌≢◌, ℕ, ◌∷◌, true, false, is_some, MatchOption};
ghost use Rattle.std.specs.Char.{digit_value};
ghost use Rattle.json.specs.Text.{after_backslash, after_high, after_u, code_unit, content, is_high_surrogate, is_low_surrogate, plain, short_escape};
ghost use Rattle.json.specs.Lex.{between, in_escape, in_string, lex};
ghost use Rattle.validate.specs.Quoted.{Passed};

/// What follows the closing quote of the text that begins here; nothing where it isn't one of JSON.
pub(crate) fn after_quoted(text: &[u8]) -> Option<&[u8]>
    ensures { MatchOption result (is_some (content plain text.now) ≡ false)
        (λ rest. (is_some (content plain text.now) ≡ true) × (lex in_string text.now ≡ lex between rest.now)) }
{
    let mut left = text;
    while let [first, rest @ ..] = left {
        if *first == b'"' {
            return Some(rest);
        }
        left = after_unit(*first, rest)?;
    }
    None
}

// What follows a byte that is no quote, or the escape that it begins.
fn after_unit(first: u8, rest: &[u8]) -> Option<&[u8]>
    requires { first ≢ 34 }
    ensures { Passed plain in_string (first ∷ rest.now) result }
{
    if first == b'\\' {
        after_escape(rest)
    } else if first < 0x20 {
        None
    } else {
        Some(rest)
    }
}

// What follows an escape, behind its backslash.
fn after_escape(text: &[u8]) -> Option<&[u8]>
    ensures { Passed after_backslash in_escape text.now result }
{
    let [first, rest @ ..] = text else {
        return None;
    };
    if *first == b'u' {
        after_unicode(rest)
    } else if is_short(*first) {
        Some(rest)
    } else {
        None
    }
}

// What follows the four digits of a code unit, and of the second one of a pair.
fn after_unicode(text: &[u8]) -> Option<&[u8]>
    ensures { Passed after_u in_string text.now result }
{
    let [a, b, c, d, rest @ ..] = text else {
        return None;
    };
    let unit = code_unit(*a, *b, *c, *d)?;
    if is_high(unit) {
        after_low_half(rest)
    } else if is_low(unit) {
        None
    } else {
        Some(rest)
    }
}

// What follows the second half of a pair, with its backslash.
fn after_low_half(text: &[u8]) -> Option<&[u8]>
    ensures { (high : ℕ) → Passed (after_high high) in_string text.now result }
{
    let [backslash, letter, a, b, c, d, rest @ ..] = text else {
        return None;
    };
    if *backslash != b'\\' || *letter != b'u' {
        return None;
    }
    if is_low(code_unit(*a, *b, *c, *d)?) {
        Some(rest)
    } else {
        None
    }
}

// A byte that is an escape behind a backslash alone.
#[tactic(auto, unfolding(json::specs::Text::short_escape))]
fn is_short(byte: u8) -> bool
    ensures { result ≡ is_some (short_escape byte) }
{
    matches!(byte, b'"' | b'\\' | b'/' | b'b' | b'f' | b'n' | b'r' | b't')
}

fn is_high(unit: u32) -> bool
    ensures { result ≡ is_high_surrogate unit }
{
    0xd800 <= unit && unit < 0xdc00
}

fn is_low(unit: u32) -> bool
    ensures { result ≡ is_low_surrogate unit }
{
    0xdc00 <= unit && unit < 0xe000
}

// The code unit that four digits spell.
#[tactic(auto, unfolding(json::specs::Text::code_unit))]
fn code_unit(a: u8, b: u8, c: u8, d: u8) -> Option<u32>
    ensures { result ≡ code_unit a b c d }
{
    let (a, b, c, d) = (digit(a), digit(b), digit(c), digit(d));
    if a < 16 && b < 16 && c < 16 && d < 16 {
        Some(((a * 16 + b) * 16 + c) * 16 + d)
    } else {
        None
    }
}

// The value of a digit in the widest base, and 36 of what is none.
fn digit(byte: u8) -> u32
    ensures { result ≡ digit_value byte }
{
    match byte {
        b'0'..=b'9' => (byte - b'0') as u32,
        b'A'..=b'Z' => (byte - b'A') as u32 + 10,
        b'a'..=b'z' => (byte - b'a') as u32 + 10,
        _ => 36,
    }
}
