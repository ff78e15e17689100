ghost use Rattle.std.specs.Prelude.{◌≡◌, IfOk};
ghost use Rattle.state_model.specs.Rows.{emptied};
ghost use Rattle.wire_model.specs.Effect.{closed};
ghost use Rattle.wire_ops.specs.Bodies.{body_of};
ghost use Rattle.op_reader.specs.Known.{kind_of_row};
ghost use Rattle.patch_decoder.specs.Holes.{IsWhole};

use lists::{Memory, Rising, Seq};
use op_reader::RowKind;
use state_model::Row;
use std::alloc::Global;
use std::marker::Model;
use wire_ops::Holder;

/// A row that was open, as a holder without holes: to open it again takes constant time.
#[derive(Drop)]
pub struct WholeRow {
    holder: Holder,
}

impl Model for WholeRow {
    ghost use Rattle.wire_model.specs.Effect.{Body};
    ghost use Rattle.wire_ops.specs.Bodies.{body_of};
    ghost use Rattle.patch_decoder.specs.Holes.{IsWhole};

    ghost Value = { Body };

    ghost view = { λ r. body_of r.holder };

    ghost invariant = { λ r. IsWhole (body_of r.holder) };
}

impl WholeRow {
    /// A holder that has no holes.
    pub fn of(holder: Holder) -> WholeRow
        requires { IsWhole (body_of holder) }
        ensures { result ≡ body_of holder }
    {
        WholeRow { holder }
    }

    /// The holder.
    pub fn into_holder(self) -> Holder
        ensures holder { body_of result ≡ self }
        ensures whole { IsWhole self }
    {
        self.holder
    }

    /// The row.
    pub fn close(self, alloc: Global) -> Result<Row, Memory>
        ensures { IfOk result (λ r. r ≡ closed self) }
    {
        self.holder.close(alloc)
    }

    /// What the row is.
    pub fn kind(&self) -> RowKind
        ensures { result ≡ kind_of_row (closed self.now) }
    {
        match &self.holder {
            Holder::Fields(class, _) => RowKind::Struct(*class),
            Holder::Items(home, _) => RowKind::Coll(*home),
            Holder::Slots(home, _) => RowKind::Coll(*home),
            Holder::Elements(home, _) => RowKind::Coll(*home),
        }
    }

    /// The row without its places.
    pub fn bare(&self, alloc: Global) -> Row
        ensures { result ≡ emptied (closed self.now) }
    {
        match &self.holder {
            Holder::Fields(class, _) => Row::Struct(*class, Rising::new(alloc)),
            Holder::Items(home, _) => Row::Map(*home, Rising::new(alloc)),
            Holder::Slots(home, _) => Row::Array(*home, Seq::new(alloc)),
            Holder::Elements(home, _) => Row::Set(*home, Rising::new(alloc)),
        }
    }
}
