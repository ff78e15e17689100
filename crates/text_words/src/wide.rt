//! Decimals of 128 bits.
ghost use Rattle.std.specs.Prelude.{◌≡◌, ◌^◌};
ghost use Rattle.text_model.specs.Decimals.{decimal_below, signed_within};
ghost use Rattle.text_words.specs.Digits.{digits_below, more_digit};

/// A number with one digit more behind it, where it is a digit and the number is below 2^128.
fn with_digit(number: u128, digit: u8) -> Option<u128>
    ensures { result ≡ more_digit (2 ^ 128) number digit }
{
    if !digit.is_ascii_digit() {
        return None;
    }
    number
        .checked_mul(10)?
        .checked_add(u128::from(digit - b'0'))
}

/// The number that these digits stand for, where it is below 2^128 and all of them are digits.
#[tactic(auto, using(crate::proofs::Numbers::digits_on_more))]
fn read_digits(digits: &[u8]) -> Option<u128>
    ensures { result ≡ digits_below (2 ^ 128) digits.now }
{
    let mut number = 0;
    for digit in digits {
        number = with_digit(number, *digit)?;
    }
    Some(number)
}

/// The number that a word is the decimal of, with no leading zero.
fn read_wide(word: &[u8]) -> Option<u128>
    ensures { result ≡ decimal_below (2 ^ 128) word.now }
{
    match word {
        [] | [b'0', _, ..] => None,
        _ => read_digits(word),
    }
}

/// The whole number of 128 bits that a word is the text of.
pub fn read_whole(word: &[u8]) -> Option<i128>
    ensures { result ≡ signed_within (2 ^ 127) word.now }
{
    match word {
        [b'-', digits @ ..] => {
            let size = read_wide(digits)?;
            if size == 0 {
                None
            } else {
                0i128.checked_sub_unsigned(size)
            }
        }
        _ => i128::try_from(read_wide(word)?).ok(),
    }
}
