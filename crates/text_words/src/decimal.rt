//! Decimals of words, within bounds and with a sign.
ghost use Rattle.std.specs.Prelude.{◌≡◌, ◌<◌, ◌≤◌, ◌^◌, IfSome};
ghost use Rattle.std.specs.Str.{all_ascii_digits};
ghost use Rattle.text_model.specs.Decimals.{decimal_below, decimal_within, is_decimal, signed_within};
ghost use Rattle.text_words.specs.Digits.{digits_below, more_digit};

/// A number with one digit more behind it, where it is a digit and the number is below 2^64.
fn with_digit(number: u64, digit: u8) -> Option<u64>
    ensures { result ≡ more_digit (2 ^ 64) number digit }
{
    if !digit.is_ascii_digit() {
        return None;
    }
    number.checked_mul(10)?.checked_add(u64::from(digit - b'0'))
}

/// The number that these digits stand for, where it is below 2^64 and all of them are digits.
#[tactic(auto, using(crate::proofs::Numbers::digits_on_more))]
fn read_digits(digits: &[u8]) -> Option<u64>
    ensures { result ≡ digits_below (2 ^ 64) digits.now }
{
    let mut number = 0;
    for digit in digits {
        number = with_digit(number, *digit)?;
    }
    Some(number)
}

/// The number that a word is the decimal of, with no leading zero.
pub fn read_decimal(word: &[u8]) -> Option<u64>
    ensures { result ≡ decimal_below (2 ^ 64) word.now }
{
    match word {
        [] | [b'0', _, ..] => None,
        _ => read_digits(word),
    }
}

/// The number below a limit that a word is the decimal of.
pub fn read_below(word: &[u8], limit: u64) -> Option<u64>
    ensures value { result ≡ decimal_below limit word.now }
    ensures bound { IfSome result (λ n. n < limit) }
{
    read_decimal(word).filter(|number| *number < limit)
}

/// The number from one to another that a word is the decimal of.
pub fn read_within(word: &[u8], low: u64, high: u64) -> Option<u64>
    ensures value { result ≡ decimal_within low high word.now }
    ensures bound { IfSome result (λ n. n ≤ high) }
{
    read_decimal(word).filter(|number| low <= *number && *number <= high)
}

/// The number of 8 bits that a word is the decimal of.
pub fn read_byte(word: &[u8]) -> Option<u8>
    ensures { result ≡ decimal_below 256 word.now }
{
    Some(read_below(word, 256)? as u8)
}

/// The whole number of 32 bits that a word is the text of.
pub fn read_signed(word: &[u8]) -> Option<i32>
    ensures { result ≡ signed_within (2 ^ 31) word.now }
{
    match word {
        [b'-', digits @ ..] => {
            let size = u32::try_from(read_decimal(digits)?).ok()?;
            if size == 0 {
                None
            } else {
                0i32.checked_sub_unsigned(size)
            }
        }
        _ => i32::try_from(read_decimal(word)?).ok(),
    }
}

/// Whether these bytes are digits.
fn are_digits(digits: &[u8]) -> bool
    ensures { result ≡ all_ascii_digits digits.now }
{
    digits.iter().all(|digit| digit.is_ascii_digit())
}

/// Whether a word is a decimal of any length, with no leading zero.
pub fn is_decimal(word: &[u8]) -> bool
    ensures { result ≡ is_decimal word.now }
{
    match word {
        [] | [b'0', _, ..] => false,
        _ => are_digits(word),
    }
}
