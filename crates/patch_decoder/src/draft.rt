//! A row while a frame is read.
use crate::whole_row::WholeRow;
use canon_patch::linked::emptied;
use lists::Memory;
use op_reader::{RowKind, kind_of_row};
use state_model::Row;
use std::alloc::Global;

/// A row that isn't open: as it is kept, or ready to be opened again.
#[derive(Drop)]
pub enum Draft {
    Kept(Row),
    Resting(Box<WholeRow>),
}

impl Draft {
    ghost use Rattle.std.specs.Prelude.{◌≡◌, IfOk};
    ghost use Rattle.state_model.specs.Rows.{emptied};
    ghost use Rattle.op_reader.specs.Known.{kind_of_row};
    ghost use Rattle.patch_decoder.specs.Drafts.{row_of};

    /// What the row is.
    pub fn kind(&self) -> RowKind
        ensures { result ≡ kind_of_row (row_of self.now) }
    {
        match self {
            Draft::Kept(row) => kind_of_row(row),
            Draft::Resting(rest) => rest.as_ref().kind(),
        }
    }

    /// The row without its places.
    pub fn bare(&self, alloc: Global) -> Row
        ensures { result ≡ emptied (row_of self.now) }
    {
        match self {
            Draft::Kept(row) => emptied(alloc, row),
            Draft::Resting(rest) => rest.as_ref().bare(alloc),
        }
    }

    /// The row.
    pub fn close(self, alloc: Global) -> Result<Row, Memory>
        ensures { IfOk result (λ r. r ≡ row_of self) }
    {
        match self {
            Draft::Kept(row) => Ok(row),
            Draft::Resting(rest) => Box::into_inner(rest).close(alloc),
        }
    }
}
