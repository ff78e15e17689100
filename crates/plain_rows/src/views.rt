//! What views see.
ghost use Rattle.std.specs.Prelude.{◌≡◌, IfOk};
ghost use Rattle.state_model.specs.Shown.{permitted as permitted_view};

use crate::chosen::rows_of;
use crate::reached_rows::reached_set;
use crate::shown_rows::shown_rows;
use schema_model::{Memory, Pair, RefNum, Schema};
use state_model::Rows;
use std::alloc::Global;

/// The permitted view: the rows that are reached from row 0 through shown places, each with its
/// shown places alone. Every place is looked at a few times, and a pair or a row is found in steps
/// as the logarithm of how many there are. The fields of all classes are laid out once, and then a
/// field is found at once.
pub fn permitted(
    alloc: Global,
    schema: &Schema,
    rows: &Rows,
    pairs: &[Pair],
) -> Result<Rows, Memory>
    ensures { IfOk result (λ view. view ≡ permitted_view schema.now rows.now pairs.now) }
{
    let shown = shown_rows(alloc, schema, rows, pairs)?;
    let numbers = reached_set(alloc, &shown, RefNum(0))?;
    rows_of(alloc, &numbers, &shown)
}
