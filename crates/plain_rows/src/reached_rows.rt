//! What places lead to.
ghost use Rattle.std.specs.Prelude.{◌≡◌, IfOk};
ghost use Rattle.state_model.specs.Reached.{reached as reached_numbers};

use crate::links::add_links;
use crate::number_set::NumberSet;
use schema_model::{Memory, RefNum};
use state_model::Rows;
use std::alloc::Global;

/// The set of the number and every number that places lead to from it.
pub fn reached_set(alloc: Global, rows: &Rows, from: RefNum) -> Result<NumberSet, Memory>
    ensures { IfOk result (λ ns. ns ≡ reached_numbers rows.now from) }
{
    rows.know_rising();
    let mut seen = NumberSet::new(alloc);
    let mut waiting = Vec::new(alloc);
    waiting.push(from)?;
    while let Some(number) = waiting.pop() {
        if seen.insert(number)? {
            add_links(rows, number, &mut waiting)?;
        }
    }
    Ok(seen)
}

/// The number and every number that places lead to from it, rising. A number that is held counts
/// also where it has no row. Every place of a reached row is looked at once.
pub fn reached(alloc: Global, rows: &Rows, from: RefNum) -> Result<Vec<RefNum>, Memory>
    ensures { IfOk result (λ ns. ns.items ≡ reached_numbers rows.now from) }
{
    reached_set(alloc, rows, from)?.to_vec(alloc)
}
