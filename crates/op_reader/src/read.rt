//! Operations read from state bytes, one at a time.
ghost use Rattle.std.specs.Prelude.{◌≡◌, ◌<◌, ◌≤◌, ◌-◌, ◌%◌, length, Some, IsTrue};
ghost use Rattle.state_model.specs.Places.{field_expects};
ghost use Rattle.wire_model.specs.Grammar.{step_at, switch_at, field_step, keyed_value, is_item_code};
ghost use Rattle.op_reader.specs.Known.{Reads, is_holder};
ghost use Rattle.op_reader.specs.Puts.{code_of};
ghost use Rattle.op_reader.specs.Homes.{kind_step, step_on};

use crate::known::Known;
use crate::put::Put;
use crate::read_items::read_item_op;
use crate::read_value::{read_count, read_value};
use crate::source::Source;
use schema_model::{RefNum, Schema, TypeNum};
use state_model::{Expected, field_expects};
use std::alloc::Global;
use wire_model::codes::SWITCH;
use wire_model::{Op, OpFault, OpKey, RowKind, Step};

/// The step at a place, and the place after it. `Memory` comes only where the bytes spell a step.
#[tactic(auto, unfolding(wire_model::specs::Grammar::step_at))]
pub fn read_op<K: Known>(
    alloc: Global,
    schema: &Schema,
    known: &K,
    holder: RefNum,
    bytes: &[u8],
    at: usize,
) -> Result<(Step, usize), OpFault>
    requires place { at < length bytes.now }
    requires holder { IsTrue (is_holder schema.now (K.rows known.now) holder) }
    ensures { Reads result (step_at schema.now (K.rows known.now) holder bytes.now at) }
{
    match known.kind_of(holder) {
        Some(kind) => read_op_on(alloc, schema, known, kind, bytes, at),
        None => Err(OpFault::UnknownRef(at)),
    }
}

/// The step at a place on a holder of this kind, and the place after it.
#[tactic(auto, unfolding(crate::specs::Homes::step_on))]
pub fn read_op_on<K: Known>(
    alloc: Global,
    schema: &Schema,
    known: &K,
    kind: RowKind,
    bytes: &[u8],
    at: usize,
) -> Result<(Step, usize), OpFault>
    requires { at < length bytes.now }
    ensures { Reads result (step_on schema.now (K.rows known.now) kind bytes.now at) }
{
    let from = Source {
        alloc,
        schema,
        known,
        bytes,
    };
    let byte = bytes[at];
    if byte == SWITCH {
        read_switch(&from, at)
    } else {
        read_held_op(&from, kind, at, byte)
    }
}

// An operation on a holder of this kind, whose byte stands at a place.
fn read_held_op<K: Known>(
    from: &Source<'_, K>,
    kind: RowKind,
    at: usize,
    byte: u8,
) -> Result<(Step, usize), OpFault>
    requires { at < length from.now.bytes.now }
    ensures { Reads result (kind_step from.now.schema.now (K.rows from.now.known.now) kind from.now.bytes.now at byte) }
{
    match kind {
        RowKind::Struct(class) => read_field_op(from, class, at, byte),
        RowKind::Coll(home) => read_item_op(from, &home, at, byte),
    }
}

// A switch to a holder that is known.
#[tactic(auto, unfolding(wire_model::specs::Grammar::switch_at))]
fn read_switch<K: Known>(from: &Source<'_, K>, at: usize) -> Result<(Step, usize), OpFault>
    requires { at < length from.now.bytes.now }
    ensures { result ≡ switch_at (K.rows from.now.known.now) from.now.bytes.now at }
{
    let (who, next) = read_count(from.bytes, at + 1)?;
    match from.known.kind_of(RefNum(who)) {
        Some(_) => Ok((Step::Turn(RefNum(who)), next)),
        None => Err(OpFault::UnknownRef(at + 1)),
    }
}

// An operation on a field: the operation is in the two top bits of its byte, the field in the others.
fn read_field_op<K: Known>(
    from: &Source<'_, K>,
    class: TypeNum,
    at: usize,
    byte: u8,
) -> Result<(Step, usize), OpFault>
    requires { at < length from.now.bytes.now }
    ensures { Reads result (field_step from.now.schema.now (K.rows from.now.known.now) from.now.bytes.now at (byte - byte % 64) (byte % 64) (field_expects from.now.schema.now class (byte % 64))) }
{
    let index = byte % 64;
    match field_expects(from.schema, class, index) {
        Some(expected) => read_field(from, at, byte - index, index, expected),
        None => Err(OpFault::UnknownField(at)),
    }
}

// The same, where the field is declared.
fn read_field<K: Known>(
    from: &Source<'_, K>,
    at: usize,
    code: u8,
    index: u8,
    expected: Expected,
) -> Result<(Step, usize), OpFault>
    requires place { at < length from.now.bytes.now }
    requires code { IsTrue (is_item_code code) }
    ensures { Reads result (field_step from.now.schema.now (K.rows from.now.known.now) from.now.bytes.now at code index (Some expected)) }
{
    let key = OpKey::Field(index);
    match Put::of(code) {
        Some(put) => read_put(from, at + 1, put, key, expected),
        None => Ok((Step::Do(Op::Delete(key)), at + 1)),
    }
}

/// An operation that puts a value under a key, from its value on.
#[tactic(auto, unfolding(wire_model::specs::Grammar::keyed_value))]
pub fn read_put<K: Known>(
    from: &Source<'_, K>,
    at: usize,
    put: Put,
    key: OpKey,
    expected: Expected,
) -> Result<(Step, usize), OpFault>
    requires { at ≤ length from.now.bytes.now }
    ensures { Reads result (keyed_value from.now.schema.now (K.rows from.now.known.now) from.now.bytes.now at (code_of put) key expected) }
{
    let (value, next) = read_value(from, put.adds(), at, expected)?;
    Ok((Step::Do(put.op(key, value)), next))
}
