//! A row that is open: operations are done to it.
ghost use Rattle.std.specs.Prelude.{◌≡◌, [], IfOk};
ghost use Rattle.wire_model.specs.Effect.{Fields, opened, closed, effect, finds};
ghost use Rattle.wire_ops.specs.PlainEdits.{plain_edit};
ghost use Rattle.patch_decoder.specs.Drafts.{row_of};

use crate::draft::Draft;
use crate::whole_row::WholeRow;
use lists::{Memory, Rising, Text};
use schema_model::TypeNum;
use state_model::{MapItem, Row};
use std::alloc::Global;
use std::marker::Model;
use wire_model::{Op, OpKey};
use wire_ops::Holder;

// A row of less weight is closed at once, which costs less than to keep it open.
const LIGHT: usize = 32;

// So many bytes of a key weigh as much as a place: to open a map again, its keys are hashed.
const KEY_BYTES: usize = 32;

/// A row while operations are done to it.
#[derive(Drop)]
pub struct OpenRow {
    holder: Holder,
    // What its places and keys weighed when it was opened, and what was put in since.
    weight: usize,
}

impl Model for OpenRow {
    ghost use Rattle.wire_model.specs.Effect.{Body};
    ghost use Rattle.wire_ops.specs.Bodies.{body_of};

    ghost Value = { Body };

    ghost view = { λ r. body_of r.holder };
}

impl OpenRow {
    /// An instance of the first class, without fields.
    pub fn first(alloc: Global) -> OpenRow
        ensures { result ≡ Fields 0 [] }
    {
        OpenRow {
            holder: Holder::Fields(TypeNum(0), Rising::new(alloc)),
            weight: 0,
        }
    }

    /// Opens a row.
    pub fn open(alloc: Global, draft: Draft) -> Result<OpenRow, Memory>
        ensures { IfOk result (λ r. r ≡ opened (row_of draft)) }
    {
        match draft {
            Draft::Kept(row) => OpenRow::open_kept(alloc, row),
            Draft::Resting(rest) => Ok(OpenRow {
                holder: Box::into_inner(rest).into_holder(),
                weight: LIGHT,
            }),
        }
    }

    // Opens a row that is kept.
    fn open_kept(alloc: Global, row: Row) -> Result<OpenRow, Memory>
        ensures { IfOk result (λ r. r ≡ opened row) }
    {
        let weight = weight_of(&row);
        let holder = Holder::open(alloc, row)?;
        Ok(OpenRow { holder, weight })
    }

    /// The item or the position of an operation is there, where the operation asks for it.
    pub fn finds(&self, op: &Op) -> bool
        ensures { result ≡ finds (plain_edit op.now) self.now }
    {
        self.holder.finds(op)
    }

    /// The row after an operation.
    pub fn apply(self, alloc: Global, op: &Op) -> Result<OpenRow, Memory>
        ensures { IfOk result (λ r. r ≡ effect (plain_edit op.now) self) }
    {
        Ok(OpenRow {
            weight: self.weight.saturating_add(weight_of_op(op)),
            holder: self.holder.apply(alloc, op)?,
        })
    }

    /// Closes it. Where it is heavy, it stays ready to be opened again, without its holes.
    pub fn shut(self, alloc: Global) -> Result<Draft, Memory>
        ensures { IfOk result (λ draft. row_of draft ≡ closed self) }
    {
        if self.weight < LIGHT {
            return Ok(Draft::Kept(self.holder.close(alloc)?));
        }
        let holder = self.holder.rest(alloc)?;
        Ok(Draft::Resting(Box::new(alloc, WholeRow::of(holder))?))
    }
}

// What it costs to open a collection: its places, and the bytes of its keys.
fn weight_of(row: &Row) -> usize {
    match row {
        Row::Struct(_, _) => 0,
        Row::Map(_, items) => weight_of_items(items.as_slice()),
        Row::Array(_, values) => values.len(),
        Row::Set(_, items) => items.len(),
    }
}

fn weight_of_items(items: &[MapItem]) -> usize {
    let mut weight: usize = 0;
    for item in items {
        weight = weight.saturating_add(weight_of_key(&item.key));
    }
    weight
}

// An item with this key.
fn weight_of_key(key: &Text) -> usize {
    1 + key.len() / KEY_BYTES
}

// What an operation may add.
fn weight_of_op(op: &Op) -> usize {
    match op {
        Op::Add(OpKey::Named(_, key), _) => weight_of_key(key),
        Op::DeleteAdd(OpKey::Named(_, key), _) => weight_of_key(key),
        _ => 1,
    }
}
