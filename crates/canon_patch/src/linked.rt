//! The rows that operations link to.
ghost use Rattle.std.specs.Prelude.{◌≡◌, List, OnOk};
ghost use Rattle.state_model.specs.declared.row.RowEntry.{RowEntry};
ghost use Rattle.state_model.specs.Rows.{kinds_of, emptied};
ghost use Rattle.wire_model.specs.Effect.{with_linked};
ghost use Rattle.wire_model.specs.Grammar.{resolved_value, expects_at};
ghost use Rattle.wire_model.specs.Resolved.{holder_kind};
ghost use Rattle.wire_model.specs.declared.op.OpKey.TheVariants.{Item};
ghost use Rattle.canon_patch.specs.Applying.{with_link, with_links, with_row};

use crate::expected::{expected_at, new_collection, new_instance};
pub use crate::row::emptied;
use lists::{Memory, Rising, Seq};
use schema_model::{RefNum, Schema, TypeNum};
use state_model::{Row, RowEntry};
use std::alloc::Global;
use trees::Tree;
use wire_model::{Op, OpKey, OpValue, Ops};

/// A holder without its places; an instance of the first class where it isn't there.
pub fn holder_kind(alloc: Global, rows: &Tree<RowEntry>, who: RefNum) -> Row
    ensures { result ≡ holder_kind (kinds_of rows.now) who }
{
    match rows.get(who.0) {
        Some(entry) => emptied(alloc, &entry.row),
        None => Row::Struct(TypeNum(0), Rising::new(alloc)),
    }
}

/// Adds the rows that the operations of a holder link to, where they aren't there.
pub(crate) fn add_linked(
    alloc: Global,
    schema: &Schema,
    rows: &mut Tree<RowEntry>,
    holder: &Row,
    ops: &Ops,
) -> Result<(), Memory>
    ensures { OnOk result (rows.new ≡ with_links schema.now holder.now ops.now rows.old) }
{
    for op in ops.as_slice() {
        add_link(alloc, schema, rows, holder, op)?;
    }
    Ok(())
}

// Adds the row that an operation links to.
fn add_link(
    alloc: Global,
    schema: &Schema,
    rows: &mut Tree<RowEntry>,
    holder: &Row,
    op: &Op,
) -> Result<(), Memory>
    ensures { OnOk result (rows.new ≡ with_link schema.now holder.now op.now rows.old) }
{
    match linked_row(alloc, schema, holder, op) {
        Some(entry) => add_row(rows, entry),
        None => Ok(()),
    }
}

/// The row that an operation links to, as it is where it is new.
pub fn linked_row(alloc: Global, schema: &Schema, holder: &Row, op: &Op) -> Option<RowEntry>
    ensures { (rows : List RowEntry) → with_row result rows ≡ with_link schema.now holder.now op.now rows }
{
    match op {
        Op::Add(key, value) => row_of_value(alloc, schema, holder, key, value),
        Op::Replace(key, value) => row_of_value(alloc, schema, holder, key, value),
        Op::DeleteAdd(key, value) => row_of_value(alloc, schema, holder, key, value),
        Op::AddByRef(value) => row_of_value(alloc, schema, holder, &OpKey::Item(0), value),
        Op::Delete(_) | Op::Clear | Op::DeleteByRef(_) => None,
    }
}

// The row that a value links to, which stands at this key.
fn row_of_value(
    alloc: Global,
    schema: &Schema,
    holder: &Row,
    key: &OpKey,
    value: &OpValue,
) -> Option<RowEntry>
    ensures { (rows : List RowEntry) → with_row result rows ≡ with_linked (resolved_value schema.now (kinds_of rows) (expects_at schema.now holder.now key.now) value.now) rows }
{
    match value {
        OpValue::Scalar(_, _) => None,
        OpValue::Struct(who, mark) => {
            let row = new_instance(alloc, *mark, expected_at(schema, holder, key));
            Some(RowEntry { who: *who, row })
        }
        OpValue::Coll(who) => {
            let row = new_collection(alloc, schema, expected_at(schema, holder, key));
            Some(RowEntry { who: *who, row })
        }
    }
}

// Adds a row where there is none of its number.
fn add_row(rows: &mut Tree<RowEntry>, entry: RowEntry) -> Result<(), Memory>
    ensures { OnOk result (rows.new ≡ with_row (Some entry) rows.old) }
{
    let who = entry.who;
    match rows.get(who.0) {
        Some(_) => Ok(()),
        None => {
            rows.put(entry)?;
            Ok(())
        }
    }
}
