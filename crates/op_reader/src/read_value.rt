//! The values that operations carry, read.
ghost use Rattle.std.specs.Prelude.{◌≡◌, ◌≤◌, length, Ok, Err, true, false, ◌==◌, IfOk, MatchResult};
ghost use Rattle.schema_model.specs.Reading.{read_scalar, number_at, ◌>>=◌ as ◌then◌};
ghost use Rattle.state_model.specs.Rows.{row_at};
ghost use Rattle.wire_model.specs.Grammar.{as_op_fault, count_at, value_at, instance_value, collection_value, check_instance, class_of_number, mark_fits, scalar_carried, has_mark};
ghost use Rattle.schema_model.specs.Classes.{is_kind_of};
ghost use Rattle.std.specs.Option.{option_map_or};
ghost use Rattle.state_model.specs.Places.{same_home};
ghost use Rattle.state_model.specs.declared.place.Expected.TheVariants.{Item as AnItem};
ghost use Rattle.op_reader.specs.Known.{Reads, class_of_kind, home_of_kind};

use crate::known::Known;
use crate::source::Source;
use scalar_codec::{ReadFault, ScalarFault, get_number, get_scalar};
use schema_model::{Home, Item, RefNum, ScalarKind, Schema, TypeNum};
use state_model::Expected;
use std::alloc::Global;
use wire_model::codes::TYPE_MARK;
use wire_model::{OpFault, OpValue, RowKind};

// A `number` at a place, and the place after it.
fn read_number(bytes: &[u8], at: usize) -> Result<(i32, usize), OpFault>
    requires { at ≤ length bytes.now }
    ensures { result ≡ as_op_fault (number_at bytes.now at) }
{
    match get_number(bytes, at) {
        Ok(read) => Ok(read),
        Err(fault) => Err(OpFault::Scalar(fault)),
    }
}

/// A reference, item or position number at a place, and the place after it.
#[tactic(auto, unfolding(wire_model::specs::Grammar::count_at), using(crate::proofs::Within::number_ends))]
pub fn read_count(bytes: &[u8], at: usize) -> Result<(u32, usize), OpFault>
    requires { at ≤ length bytes.now }
    ensures value { result ≡ count_at bytes.now at }
    ensures within { IfOk result (λ read. read.1 ≤ length bytes.now) }
{
    let (number, next) = read_number(bytes, at)?;
    match u32::try_from(number) {
        Ok(count) => Ok((count, next)),
        Err(_) => Err(OpFault::Scalar(ReadFault::BadForm(at))),
    }
}

/// The value of what a place is declared to hold, and the place after it.
#[tactic(auto, unfolding(wire_model::specs::Grammar::value_at))]
pub fn read_value<K: Known>(
    from: &Source<'_, K>,
    adds: bool,
    at: usize,
    expected: Expected,
) -> Result<(OpValue, usize), OpFault>
    requires { at ≤ length from.now.bytes.now }
    ensures { Reads result (value_at from.now.schema.now (K.rows from.now.known.now) adds from.now.bytes.now at expected) }
{
    match expected {
        Expected::Item(item) => read_item(from, adds, at, item),
        Expected::Collection(home) => read_collection(from, home, at),
    }
}

// The value of a place that is declared to hold an item.
#[tactic(auto, unfolding(wire_model::specs::Grammar::value_at))]
fn read_item<K: Known>(
    from: &Source<'_, K>,
    adds: bool,
    at: usize,
    item: Item,
) -> Result<(OpValue, usize), OpFault>
    requires { at ≤ length from.now.bytes.now }
    ensures { Reads result (value_at from.now.schema.now (K.rows from.now.known.now) adds from.now.bytes.now at (AnItem item)) }
{
    match item {
        Item::Scalar(kind) => read_scalar_value(from.alloc, from.bytes, at, kind),
        Item::Class(class) => read_instance(from, class, adds, at),
    }
}

// A scalar of a kind.
fn read_scalar_value(
    alloc: Global,
    bytes: &[u8],
    at: usize,
    kind: ScalarKind,
) -> Result<(OpValue, usize), OpFault>
    requires { at ≤ length bytes.now }
    ensures { Reads result (scalar_carried kind (read_scalar bytes.now at kind)) }
{
    match get_scalar(alloc, bytes, at, kind) {
        Ok((value, next)) => Ok((OpValue::Scalar(kind, value), next)),
        Err(ScalarFault::Read(fault)) => Err(OpFault::Scalar(fault)),
        Err(ScalarFault::Memory) => Err(OpFault::Memory),
    }
}

// A collection of a home, by its number.
fn read_collection<K: Known>(
    from: &Source<'_, K>,
    home: Home,
    at: usize,
) -> Result<(OpValue, usize), OpFault>
    requires { at ≤ length from.now.bytes.now }
    ensures { result ≡ (count_at from.now.bytes.now at then λ n. collection_value home at n (row_at (K.rows from.now.known.now) n.0)) }
{
    let (who, next) = read_count(from.bytes, at)?;
    let who = RefNum(who);
    match from.known.kind_of(who) {
        None => Ok((OpValue::Coll(who), next)),
        Some(kind) => {
            if has_home(kind, home) {
                Ok((OpValue::Coll(who), next))
            } else {
                Err(OpFault::WrongClass(at))
            }
        }
    }
}

// An instance of a class, by its number; a type mark may follow where the operation has the ADD bit.
#[tactic(auto, unfolding(wire_model::specs::Grammar::instance_value, wire_model::specs::Grammar::marked_value))]
fn read_instance<K: Known>(
    from: &Source<'_, K>,
    class: TypeNum,
    adds: bool,
    at: usize,
) -> Result<(OpValue, usize), OpFault>
    requires { at ≤ length from.now.bytes.now }
    ensures { result ≡ (count_at from.now.bytes.now at then λ n. instance_value from.now.schema.now class adds from.now.bytes.now at n (row_at (K.rows from.now.known.now) n.0)) }
{
    let (who, next) = read_count(from.bytes, at)?;
    let who = RefNum(who);
    check_instance(from, class, adds, who, at)?;
    if !has_mark(adds, from.bytes, next) {
        return Ok((OpValue::Struct(who, None), next));
    }
    let (mark, end) = read_class(from.schema, from.bytes, next + 1)?;
    if mark_fits(from, class, who, mark) {
        Ok((OpValue::Struct(who, Some(mark)), end))
    } else {
        Err(OpFault::WrongClass(at))
    }
}

// The number of an instance is known as one of the class or of a descendant, or it is unknown and may be added.
fn check_instance<K: Known>(
    from: &Source<'_, K>,
    class: TypeNum,
    adds: bool,
    who: RefNum,
    at: usize,
) -> Result<(), OpFault>
    ensures { MatchResult result (λ _. check_instance from.now.schema.now class adds at (row_at (K.rows from.now.known.now) who) ≡ Ok true)
        (λ fault. check_instance from.now.schema.now class adds at (row_at (K.rows from.now.known.now) who) ≡ Err fault) }
{
    match from.known.kind_of(who) {
        None => {
            if adds {
                Ok(())
            } else {
                Err(OpFault::UnknownRef(at))
            }
        }
        Some(kind) => {
            if is_instance_of(from.schema, kind, class) {
                Ok(())
            } else {
                Err(OpFault::WrongClass(at))
            }
        }
    }
}

// The row is an instance of a class or of a descendant.
fn is_instance_of(schema: &Schema, kind: RowKind, class: TypeNum) -> bool
    ensures { result ≡ option_map_or (λ own. is_kind_of schema.now own class) (class_of_kind kind) false }
{
    match kind {
        RowKind::Struct(own) => schema.is_kind_of(own, class),
        RowKind::Coll(_) => false,
    }
}

// The row is an instance of this very class.
fn has_class(kind: RowKind, class: TypeNum) -> bool
    ensures { result ≡ option_map_or (λ own. own == class) (class_of_kind kind) false }
{
    match kind {
        RowKind::Struct(own) => own == class,
        RowKind::Coll(_) => false,
    }
}

// The row is a collection of a home.
fn has_home(kind: RowKind, home: Home) -> bool
    ensures { result ≡ option_map_or (same_home home) (home_of_kind kind) false }
{
    match kind {
        RowKind::Struct(_) => false,
        RowKind::Coll(own) => own == home,
    }
}

// A type mark begins at a place: the operation has the ADD bit, and the next byte is the mark's.
fn has_mark(adds: bool, bytes: &[u8], at: usize) -> bool
    ensures { result ≡ has_mark adds bytes.now at }
{
    adds && bytes.get(at) == Some(&TYPE_MARK)
}

// A type number that is a class, and the place after it.
fn read_class(schema: &Schema, bytes: &[u8], at: usize) -> Result<(TypeNum, usize), OpFault>
    requires { at ≤ length bytes.now }
    ensures { result ≡ (as_op_fault (number_at bytes.now at) then class_of_number schema.now at) }
{
    let (number, next) = read_number(bytes, at)?;
    match u32::try_from(number) {
        Ok(class) => {
            if (class as usize) < schema.classes().len() {
                Ok((TypeNum(class), next))
            } else {
                Err(OpFault::UnknownType(at))
            }
        }
        Err(_) => Err(OpFault::UnknownType(at)),
    }
}

// A class that a type mark gives is the declared class or a descendant, and the row's own where the row is known.
fn mark_fits<K: Known>(from: &Source<'_, K>, class: TypeNum, who: RefNum, mark: TypeNum) -> bool
    ensures { result ≡ mark_fits from.now.schema.now class (row_at (K.rows from.now.known.now) who) mark }
{
    from.schema.is_kind_of(mark, class)
        && match from.known.kind_of(who) {
            None => true,
            Some(kind) => has_class(kind, mark),
        }
}
