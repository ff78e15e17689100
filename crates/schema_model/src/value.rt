ghost use Rattle.std.specs.Prelude.{◌≡◌, IfOk};
ghost use Rattle.schema_model.specs.Fits.{in_range, in_signed, in_unsigned};

use crate::each_scalar;
use crate::number::RefNum;
use crate::scalar::ScalarKind;
use lists::{Copied, Memory, Text};
use std::alloc::Global;

/// A value of a field or an item.
#[derive(Debug, Drop)]
pub enum Value {
    Whole(i128),
    Str(Text),
    Truth(bool),
    /// An instance or a collection, by its reference number.
    Link(RefNum),
}

impl Value {
    ghost use Rattle.schema_model.specs.Values.{same_value};
    ghost use Rattle.schema_model.specs.Fits.{fits};

    /// Whether two values are equal.
    pub fn same(&self, other: &Value) -> bool
        ensures { result ≡ same_value self.now other.now }
    {
        match (self, other) {
            (Value::Whole(a), Value::Whole(b)) => a == b,
            (Value::Str(a), Value::Str(b)) => a.as_slice() == b.as_slice(),
            (Value::Truth(a), Value::Truth(b)) => a == b,
            (Value::Link(a), Value::Link(b)) => a == b,
            _ => false,
        }
    }

    /// Whether the value is of a kind and in its range. A text fits where it is shorter than 2^32 bytes.
    pub fn fits(&self, kind: ScalarKind) -> bool
        ensures { result ≡ fits kind self.now }
    {
        match self {
            Value::Whole(whole) => is_in_range(kind, *whole),
            Value::Str(text) => kind == ScalarKind::Str && text.as_slice().len() < 1 << 32,
            Value::Truth(_) => kind == ScalarKind::Bool,
            Value::Link(_) => false,
        }
    }

    /// A second value that is the same.
    pub fn copy(&self, alloc: Global) -> Result<Value, Memory>
        ensures { IfOk result (λ x. x ≡ self.now) }
    {
        match self {
            Value::Whole(number) => Ok(Value::Whole(*number)),
            Value::Str(text) => Ok(Value::Str(text.copy(alloc)?)),
            Value::Truth(truth) => Ok(Value::Truth(*truth)),
            Value::Link(who) => Ok(Value::Link(*who)),
        }
    }
}

impl Copied for Value {
    fn copy(&self, alloc: Global) -> Result<Value, Memory> {
        self.copy(alloc)
    }
}

macro_rules! ranges {
    ($kind:ident, $whole:ident; (Number $number:literal number) (Str $text:literal text) (Bool $truth:literal truth)
        $(($fixed:ident $word:literal $sign:ident $width:tt))*) => {
        match $kind {
            ScalarKind::Number => is_signed($whole, 1 << 31),
            ScalarKind::Str | ScalarKind::Bool => false,
            $(ScalarKind::$fixed => range_of!($whole $sign $width),)*
        }
    };
}

macro_rules! range_of {
    ($whole:ident signed $width:tt) => { is_signed($whole, 1 << (8 * $width - 1)) };
    ($whole:ident unsigned $width:tt) => { is_unsigned($whole, 1 << (8 * $width)) };
}

// Whether a whole number is in the range of a kind.
fn is_in_range(kind: ScalarKind, whole: i128) -> bool
    ensures { result ≡ in_range kind whole }
{
    each_scalar!(ranges kind, whole;)
}

// Whether a whole number is from -half to half - 1.
fn is_signed(whole: i128, half: u64) -> bool
    ensures { result ≡ in_signed half whole }
{
    -i128::from(half) <= whole && whole < i128::from(half)
}

// Whether a whole number is from 0 to limit - 1.
fn is_unsigned(whole: i128, limit: u64) -> bool
    ensures { result ≡ in_unsigned limit whole }
{
    0 <= whole && whole < i128::from(limit)
}
