//! The numbers of rows that were met.
ghost use Rattle.std.specs.Prelude.{◌≡◌, ◌||◌, ◌==◌, ℕ, OnOk};
ghost use Rattle.state_model.specs.Reached.{is_among};

use plain_rows::NumberSet;
use schema_model::{Memory, RefNum};

/// Adds a number.
pub fn add_number(numbers: &mut NumberSet, number: RefNum) -> Result<(), Memory>
    ensures { OnOk result ((k : ℕ) → is_among k numbers.new ≡ ((number == k) || is_among k numbers.old)) }
{
    numbers.insert(number)?;
    Ok(())
}
