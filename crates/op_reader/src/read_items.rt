//! Operations on collections, read from state bytes.
ghost use Rattle.std.specs.Prelude.{◌≡◌, ◌+◌, ◌<◌, ◌≤◌, ◌&&◌, [], length, IsTrue};
ghost use Rattle.state_model.specs.Places.{item_expects, holds_instances};
ghost use Rattle.wire_model.specs.Grammar.{collection_step, count_at, item_step, keyed_value, named_value, by_ref_value, is_item_code, is_map, is_array_row};
ghost use Rattle.schema_model.specs.Reading.{◌>>=◌ as ◌then◌};
ghost use Rattle.wire_model.specs.declared.op.OpKey.TheVariants.{Named};
ghost use Rattle.op_reader.specs.Known.{Reads};
ghost use Rattle.op_reader.specs.Puts.{code_of};
ghost use Rattle.op_reader.specs.Homes.{home_row, item_after, refs_step};

use crate::known::Known;
use crate::put::Put;
use crate::read::read_put;
use crate::read_value::{read_count, read_value};
use crate::source::Source;
use lists::{Memory, Text};
use scalar_codec::get_text;
use schema_model::{Home, Item, RefNum, Schema, Shape};
use state_model::{Expected, item_expects};
use wire_model::codes::{
    ADD, ADD_BY_REF, CLEAR, DELETE, DELETE_AND_ADD, DELETE_AND_MOVE, DELETE_BY_REF, MOVE,
    MOVE_AND_ADD, REPLACE, REVERSE,
};
use wire_model::{Op, OpFault, OpKey, Step};

/// An operation on a collection of a home, whose byte stands at a place.
#[tactic(auto, unfolding(wire_model::specs::Grammar::collection_step))]
pub fn read_item_op<K: Known>(
    from: &Source<'_, K>,
    home: &Home,
    at: usize,
    code: u8,
) -> Result<(Step, usize), OpFault>
    requires { at < length from.now.bytes.now }
    ensures { Reads result (collection_step from.now.schema.now (K.rows from.now.known.now) (home_row from.now.schema.now home.now) home.now from.now.bytes.now at code) }
{
    match code {
        CLEAR => Ok((Step::Do(Op::Clear), at + 1)),
        // Those that move or reverse arrays.
        REVERSE | MOVE | DELETE_AND_MOVE | MOVE_AND_ADD => Err(OpFault::Unsupported(at, code)),
        REPLACE | DELETE | ADD | DELETE_AND_ADD => read_numbered(from, home, at, code),
        DELETE_BY_REF => read_delete_by_ref(from.schema, home, from.bytes, at),
        ADD_BY_REF => read_add_by_ref(from, home, at),
        _ => Err(OpFault::UnknownOp(at, code)),
    }
}

// An operation with an item number or a position.
fn read_numbered<K: Known>(
    from: &Source<'_, K>,
    home: &Home,
    at: usize,
    code: u8,
) -> Result<(Step, usize), OpFault>
    requires place { at < length from.now.bytes.now }
    requires code { IsTrue (is_item_code code) }
    ensures { Reads result (count_at from.now.bytes.now (at + 1)
        then item_step from.now.schema.now (K.rows from.now.known.now) (home_row from.now.schema.now home.now) from.now.bytes.now at code (item_expects from.now.schema.now home.now)) }
{
    let (number, next) = read_count(from.bytes, at + 1)?;
    match item_expects(from.schema, *home) {
        Some(expected) => {
            let named = is_map(from.schema, home);
            read_item(from, next, code, number, expected, named)
        }
        None => Err(OpFault::UnknownOp(at, code)),
    }
}

// The same from behind the number on; new items of a map are named.
fn read_item<K: Known>(
    from: &Source<'_, K>,
    at: usize,
    code: u8,
    number: u32,
    expected: Expected,
    named: bool,
) -> Result<(Step, usize), OpFault>
    requires place { at ≤ length from.now.bytes.now }
    requires code { IsTrue (is_item_code code) }
    ensures { Reads result (item_after from.now.schema.now (K.rows from.now.known.now) named from.now.bytes.now code expected (number, at)) }
{
    match Put::of(code) {
        Some(put) => {
            if named && put.adds() {
                read_named(from, at, put, number, expected)
            } else {
                read_put(from, at, put, OpKey::Item(number), expected)
            }
        }
        None => Ok((Step::Do(Op::Delete(OpKey::Item(number))), at)),
    }
}

// A new item of a map, from its key on.
#[tactic(auto, unfolding(wire_model::specs::Grammar::named_value), using(schema_model::proofs::Within::text_ends))]
fn read_named<K: Known>(
    from: &Source<'_, K>,
    at: usize,
    put: Put,
    number: u32,
    expected: Expected,
) -> Result<(Step, usize), OpFault>
    requires { at ≤ length from.now.bytes.now }
    ensures { Reads result (named_value from.now.schema.now (K.rows from.now.known.now) from.now.bytes.now at (code_of put) number expected) }
{
    match get_text(from.bytes, at) {
        Ok((key, next)) => read_keyed(from, next, put, number, key, expected),
        Err(fault) => Err(OpFault::Scalar(fault)),
    }
}

// A new item of a map, from its value on.
#[tactic(auto, unfolding(wire_model::specs::Grammar::keyed_value))]
fn read_keyed<K: Known>(
    from: &Source<'_, K>,
    at: usize,
    put: Put,
    number: u32,
    key: &str,
    expected: Expected,
) -> Result<(Step, usize), OpFault>
    requires { at ≤ length from.now.bytes.now }
    ensures { Reads result (keyed_value from.now.schema.now (K.rows from.now.known.now) from.now.bytes.now at (code_of put) (Named number key.now) expected) }
{
    let (value, end) = read_value(from, put.adds(), at, expected)?;
    match Text::from_text(from.alloc, key) {
        Ok(key) => Ok((Step::Do(put.op(OpKey::Named(number, key), value)), end)),
        Err(Memory) => Err(OpFault::Memory),
    }
}

// An instance taken out of an array by its number.
fn read_delete_by_ref(
    schema: &Schema,
    home: &Home,
    bytes: &[u8],
    at: usize,
) -> Result<(Step, usize), OpFault>
    requires { at < length bytes.now }
    ensures { result ≡ refs_step schema.now [] (home_row schema.now home.now) home.now bytes.now at 33 }
{
    if !holds_refs(schema, home) {
        return Err(OpFault::UnknownOp(at, DELETE_BY_REF));
    }
    let (who, next) = read_count(bytes, at + 1)?;
    Ok((Step::Do(Op::DeleteByRef(RefNum(who))), next))
}

// An instance put into an array by its number, which stands before the value too.
fn read_add_by_ref<K: Known>(
    from: &Source<'_, K>,
    home: &Home,
    at: usize,
) -> Result<(Step, usize), OpFault>
    requires { at < length from.now.bytes.now }
    ensures { Reads result (refs_step from.now.schema.now (K.rows from.now.known.now) (home_row from.now.schema.now home.now) home.now from.now.bytes.now at 129) }
{
    if !holds_refs(from.schema, home) {
        return Err(OpFault::UnknownOp(at, ADD_BY_REF));
    }
    let (_, next) = read_count(from.bytes, at + 1)?;
    match item_expects(from.schema, *home) {
        Some(expected) => read_pushed(from, next, expected),
        None => Err(OpFault::UnknownOp(at, ADD_BY_REF)),
    }
}

// An instance put into an array, from its value on.
#[tactic(auto, unfolding(wire_model::specs::Grammar::by_ref_value))]
fn read_pushed<K: Known>(
    from: &Source<'_, K>,
    at: usize,
    expected: Expected,
) -> Result<(Step, usize), OpFault>
    requires { at ≤ length from.now.bytes.now }
    ensures { Reads result (by_ref_value from.now.schema.now (K.rows from.now.known.now) from.now.bytes.now at expected) }
{
    let (value, end) = read_value(from, true, at, expected)?;
    Ok((Step::Do(Op::AddByRef(value)), end))
}

// The collections of a home are maps.
fn is_map(schema: &Schema, home: &Home) -> bool
    ensures { result ≡ is_map (home_row schema.now home.now) }
{
    match schema.home_field(*home) {
        Some(field) => matches!(field.shape, Shape::Map(_)),
        None => false,
    }
}

// The collections of a home are arrays of instances.
fn holds_refs(schema: &Schema, home: &Home) -> bool
    ensures { result ≡ (is_array_row (home_row schema.now home.now) && holds_instances schema.now home.now) }
{
    match schema.home_field(*home) {
        Some(field) => matches!(field.shape, Shape::Array(Item::Class(_))),
        None => false,
    }
}
