//! Rows that are chosen by their numbers.
ghost use Rattle.std.specs.Prelude.{◌≡◌, IfOk};
ghost use Rattle.state_model.specs.Rows.{rows_of as rows_of_numbers};

use crate::number_set::NumberSet;
use schema_model::Memory;
use state_model::Rows;
use std::alloc::Global;

/// The rows of these numbers.
pub fn rows_of(alloc: Global, numbers: &NumberSet, rows: &Rows) -> Result<Rows, Memory>
    ensures { IfOk result (λ left. left ≡ rows_of_numbers numbers.now rows.now) }
{
    let mut out = Rows::new(alloc);
    for entry in rows.as_slice() {
        if numbers.has(entry.who) {
            out.push(entry.copy(alloc)?)?;
        }
    }
    Ok(out)
}
