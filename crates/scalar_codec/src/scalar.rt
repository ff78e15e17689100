//! Scalars of each kind.
ghost use Rattle.std.specs.Prelude.{◌≡◌, ◌≢◌, ◌≤◌, ◌++◌, ℕ, List, length, IsTrue, Ok, OnOk, OnErr};
ghost use Rattle.schema_model.specs.Spelling.{spelling};
ghost use Rattle.schema_model.specs.Fits.{fits};
ghost use Rattle.schema_model.specs.Reading.{read_scalar};
ghost use Rattle.scalar_codec.specs.Gives.{GivesScalar};

use crate::fixed::{fixed_8, low_and_next, put_fixed};
use crate::number::{get_number, put_number};
use crate::text::{get_text, put_text};
use schema_model::{Memory, ReadFault, ScalarFault, ScalarKind, Text, Value, each_scalar};
use std::alloc::Global;

// The whole numbers of so many bytes.
macro_rules! number_of {
    (1 signed) => { i8 };
    (1 unsigned) => { u8 };
    (2 signed) => { i16 };
    (2 unsigned) => { u16 };
    (4 signed) => { i32 };
    (4 unsigned) => { u32 };
}

// The bits of a whole number that fits.
macro_rules! bits_of {
    ($width:tt signed $whole:expr) => { ($whole as number_of!($width signed)).cast_unsigned() };
    ($width:tt unsigned $whole:expr) => { $whole as number_of!($width unsigned) };
}

// The whole number of these bits.
macro_rules! whole_of {
    ($width:tt signed $low:expr) => { i128::from(($low as number_of!($width unsigned)).cast_signed()) };
    ($width:tt unsigned $low:expr) => { i128::from($low) };
}

macro_rules! put_each {
    ($out:ident, $kind:ident, $value:ident; (Number $number:literal number) (Str $text:literal text) (Bool $truth:literal truth)
        $(($fixed:ident $word:literal $sign:ident $width:tt))*) => {
        match ($kind, $value) {
            (ScalarKind::Number, Value::Whole(whole)) => put_number($out, *whole as i32),
            (ScalarKind::Str, Value::Str(text)) => put_text($out, text.as_str()),
            (ScalarKind::Bool, Value::Truth(truth)) => put_fixed::<1>($out, u64::from(*truth)),
            $((ScalarKind::$fixed, Value::Whole(whole)) => {
                put_fixed::<$width>($out, u64::from(bits_of!($width $sign *whole)))
            })*
            _ => unreachable!(),
        }
    };
}

macro_rules! get_each {
    ($bytes:ident, $at:ident, $kind:ident; (Number $number:literal number) (Str $text:literal text) (Bool $truth:literal truth)
        $(($fixed:ident $word:literal $sign:ident $width:tt))*) => {
        match $kind {
            ScalarKind::Number => {
                let (found, next) = get_number($bytes, $at)?;
                Ok((Value::Whole(i128::from(found)), next))
            }
            ScalarKind::Bool => {
                let (found, next) = fixed_8($bytes, $at)?;
                Ok((Value::Truth(found > 0), next))
            }
            $(ScalarKind::$fixed => {
                let (low, next) = low_and_next::<$width>($bytes, $at)?;
                Ok((Value::Whole(whole_of!($width $sign low)), next))
            })*
            ScalarKind::Str => unreachable!(),
        }
    };
}

/// Appends the bytes of a value of a kind. An `Err` leaves `out` as it was.
pub fn put_scalar(out: &mut Vec<u8>, kind: ScalarKind, value: &Value) -> Result<(), Memory>
    requires { IsTrue (fits kind value.now) }
    ensures ok { OnOk result (out.new.items ≡ out.old.items ++ spelling kind value.now) }
    // What was written is read again, whatever follows.
    ensures again { OnOk result ((more : List ℕ) →
        read_scalar (out.new.items ++ more) (length out.old.items) kind ≡ Ok (value.now, length out.new.items)) }
    ensures err { OnErr result (out.new.items ≡ out.old.items) }
{
    each_scalar!(put_each out, kind, value;)
}

/// The value of a kind at a place, and the place after it. Only a text needs memory.
pub fn get_scalar(
    alloc: Global,
    bytes: &[u8],
    at: usize,
    kind: ScalarKind,
) -> Result<(Value, usize), ScalarFault>
    requires { at ≤ length bytes.now }
    ensures { GivesScalar result (read_scalar bytes.now at kind) }
{
    if kind == ScalarKind::Str {
        get_text_value(alloc, bytes, at)
    } else {
        get_flat(bytes, at, kind).map_err(ScalarFault::Read)
    }
}

fn get_text_value(alloc: Global, bytes: &[u8], at: usize) -> Result<(Value, usize), ScalarFault>
    requires { at ≤ length bytes.now }
    ensures { GivesScalar result (read_scalar bytes.now at ScalarKind.Str) }
{
    match get_text(bytes, at) {
        Ok((found, next)) => match Text::from_text(alloc, found) {
            Ok(text) => Ok((Value::Str(text), next)),
            Err(Memory) => Err(ScalarFault::Memory),
        },
        Err(fault) => Err(ScalarFault::Read(fault)),
    }
}

// A value of any kind but a text.
#[tactic(auto, unfolding(schema_model::specs::Reading::signed_at, schema_model::specs::Reading::unsigned_at))]
fn get_flat(bytes: &[u8], at: usize, kind: ScalarKind) -> Result<(Value, usize), ReadFault>
    requires place { at ≤ length bytes.now }
    requires flat { kind ≢ ScalarKind.Str }
    ensures { result ≡ read_scalar bytes.now at kind }
{
    each_scalar!(get_each bytes, at, kind;)
}
