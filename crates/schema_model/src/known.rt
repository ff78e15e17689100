//! What the types of values say of them. The functions do nothing else than to say so.
ghost use Rattle.std.specs.Prelude.{◌≡◌, ◌^◌, true};
ghost use Rattle.std.specs.Str.{is_utf8};
ghost use Rattle.schema_model.specs.Fits.{in_signed, is_worded};

use crate::value::Value;
use lists::Text;

/// A text is UTF-8.
pub fn know_text(text: &Text)
    ensures { is_utf8 text.now ≡ true }
{
    let _ = text.as_str();
}

/// A number of 32 bits is one.
pub fn know_number(number: i32)
    ensures { in_signed (2 ^ 31) number ≡ true }
{}

/// The text of a value is UTF-8, where it is one.
pub fn know_value(value: &Value)
    ensures { is_worded value.now ≡ true }
{
    if let Value::Str(text) = value {
        know_text(text);
    }
}
