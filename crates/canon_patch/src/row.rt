//! The operations on one row.
ghost use Rattle.std.specs.Prelude.{◌≡◌, ◌++◌, IfOk, IsTrue, OnOk, map};
ghost use Rattle.state_model.specs.Rows.{emptied};
ghost use Rattle.wire_model.specs.Edits.{encoded};
ghost use Rattle.wire_model.specs.Patch.{is_short, row_edits, whole_edits, whole_start};
ghost use Rattle.canon_patch.specs.Positions.{has_positions};

use crate::array::push_values;
use crate::fields::push_fields;
use crate::map::push_items;
use crate::set::push_elements;
use crate::target::Target;
use lists::{Rising, Seq};
use schema_model::Memory;
use state_model::Row;
use std::alloc::Global;
use wire_model::{Op, Ops};

// The operations that lead from an old row to a new one of the same kind.
pub(crate) fn push_row(to: &Target<'_>, ops: &mut Ops, old: &Row, new: &Row) -> Result<(), Memory>
    requires { IsTrue (has_positions to.now.schema.now old.now new.now) }
    ensures { OnOk result (ops.new ≡ ops.old ++ map encoded (row_edits to.now.schema.now to.now.rows.now old.now new.now)) }
{
    match (old, new) {
        (Row::Struct(_, old), Row::Struct(class, new)) => push_fields(to, ops, *class, old, new),
        (Row::Map(_, old), Row::Map(home, new)) => push_items(to, ops, *home, old, new),
        (Row::Array(_, old), Row::Array(home, new)) => push_values(to, ops, home, old, new),
        (Row::Set(_, old), Row::Set(home, new)) => push_elements(to, ops, *home, old, new),
        _ => Ok(()),
    }
}

// The operations that lead from an old row to a new one of the same kind.
pub(crate) fn row_ops(to: &Target<'_>, old: &Row, new: &Row) -> Result<Ops, Memory>
    requires { IsTrue (has_positions to.now.schema.now old.now new.now) }
    ensures { IfOk result (λ ops. ops ≡ map encoded (row_edits to.now.schema.now to.now.rows.now old.now new.now)) }
{
    let mut ops = Seq::new(to.alloc);
    push_row(to, &mut ops, old, new)?;
    Ok(ops)
}

// The operations of a whole row.
pub(crate) fn whole_ops(to: &Target<'_>, row: &Row) -> Result<Ops, Memory>
    requires { IsTrue (is_short to.now.schema.now row.now) }
    ensures { IfOk result (λ ops. ops ≡ map encoded (whole_edits to.now.schema.now to.now.rows.now row.now)) }
{
    let mut ops = Seq::new(to.alloc);
    push_start(&mut ops, row)?;
    let empty = emptied(to.alloc, row);
    push_row(to, &mut ops, &empty, row)?;
    Ok(ops)
}

// A whole array that isn't empty begins with CLEAR.
fn push_start(ops: &mut Ops, row: &Row) -> Result<(), Memory>
    ensures { OnOk result (ops.new ≡ ops.old ++ map encoded (whole_start row.now)) }
{
    match row {
        Row::Array(_, values) if !values.is_empty() => ops.push(Op::Clear),
        _ => Ok(()),
    }
}

// A row without its places. It takes no memory.
pub fn emptied(alloc: Global, row: &Row) -> Row
    ensures { result ≡ emptied row.now }
{
    match row {
        Row::Struct(class, _) => Row::Struct(*class, Rising::new(alloc)),
        Row::Map(home, _) => Row::Map(*home, Rising::new(alloc)),
        Row::Array(home, _) => Row::Array(*home, Seq::new(alloc)),
        Row::Set(home, _) => Row::Set(*home, Rising::new(alloc)),
    }
}
