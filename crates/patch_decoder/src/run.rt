//! Rows while operations are done to them.
ghost use Rattle.std.specs.Prelude.{◌≡◌, true, IfOk, OnOk};
ghost use Rattle.wire_model.specs.Effect.{finds};
ghost use Rattle.wire_ops.specs.PlainEdits.{plain_edit};
ghost use Rattle.op_reader.specs.Known.{kind_of_row};
ghost use Rattle.patch_decoder.specs.Runs.{Opens, Does, Acts, closed_rows};

use crate::drafts::Drafts;
use crate::open_row::OpenRow;
use canon_patch::linked::linked_row;
use lists::Memory;
use op_reader::{RowKind, kind_of_row};
use schema_model::{RefNum, Schema};
use state_model::Row;
use std::alloc::Global;
use std::mem;
use wire_model::{Op, OpFault};

/// Rows of which one is open: the operations are done to it.
#[derive(Drop)]
pub struct Run {
    // All rows; of the open one the kind alone.
    rows: Drafts,
    who: RefNum,
    kind: Row,
    holder: OpenRow,
}

impl Run {
    /// Opens a row, where it is there.
    #[tactic(auto, using(crate::proofs::RowsPut::kind_is_bare))]
    pub fn open(alloc: Global, rows: Drafts, who: RefNum) -> Result<Run, Memory>
        ensures { IfOk result (λ run. Opens rows who run) }
    {
        let mut rows = rows;
        let kind = rows.holder_kind(alloc, who);
        let draft = rows.take(alloc, who, &kind)?;
        let holder = OpenRow::open(alloc, draft)?;
        Ok(Run {
            rows,
            who,
            kind,
            holder,
        })
    }

    /// The rows, for what is known of them.
    pub fn rows(&self) -> &Drafts
        ensures { result.now ≡ self.now.rows }
    {
        &self.rows
    }

    /// What the open row is.
    pub fn kind(&self) -> RowKind
        ensures { result ≡ kind_of_row self.now.kind }
    {
        kind_of_row(&self.kind)
    }

    /// The open row.
    pub fn who(&self) -> RefNum
        ensures { result ≡ self.now.who }
    {
        self.who
    }

    /// Closes the open row and opens another one. After an `Err` the rows are any.
    #[tactic(auto, using(crate::proofs::RowsPut::kind_is_bare))]
    pub fn turn(&mut self, alloc: Global, who: RefNum) -> Result<(), Memory>
        ensures { OnOk result (Opens (closed_rows self.old) who self.new) }
    {
        let holder = mem::replace(&mut self.holder, OpenRow::first(alloc));
        self.rows.put(self.who, holder.shut(alloc)?)?;
        self.kind = self.rows.holder_kind(alloc, who);
        let draft = self.rows.take(alloc, who, &self.kind)?;
        self.holder = OpenRow::open(alloc, draft)?;
        self.who = who;
        Ok(())
    }

    /// Does an operation to the open row, where it finds its item; `place` is told where it doesn't.
    pub fn act(
        &mut self,
        alloc: Global,
        schema: &Schema,
        op: &Op,
        place: usize,
    ) -> Result<(), OpFault>
        ensures { Acts schema.now op.now place self.old self.new result }
    {
        if !self.holder.finds(op) {
            return Err(OpFault::NoItem(place));
        }
        match self.done(alloc, schema, op) {
            Ok(()) => Ok(()),
            Err(Memory) => Err(OpFault::Memory),
        }
    }

    // Adds the row that an operation links to, and does it.
    fn done(&mut self, alloc: Global, schema: &Schema, op: &Op) -> Result<(), Memory>
        requires { finds (plain_edit op.now) self.old.holder ≡ true }
        ensures { OnOk result (Does schema.now op.now self.old self.new) }
    {
        if let Some(entry) = linked_row(alloc, schema, &self.kind, op) {
            self.rows.add(entry)?;
        }
        let holder = mem::replace(&mut self.holder, OpenRow::first(alloc));
        self.holder = holder.apply(alloc, op)?;
        Ok(())
    }

    /// All rows, with the open one closed.
    pub fn close(self, alloc: Global) -> Result<Drafts, Memory>
        ensures { IfOk result (λ rows. rows ≡ closed_rows self) }
    {
        let mut rows = self.rows;
        rows.put(self.who, self.holder.shut(alloc)?)?;
        Ok(rows)
    }
}
