//! Whether arrays are short enough to go by position.
ghost use Rattle.std.specs.Prelude.{◌≡◌, option_copied};
ghost use Rattle.state_model.specs.declared.row.Row.TheVariants.{Array};
ghost use Rattle.wire_model.specs.Patch.{is_short};
ghost use Rattle.canon_patch.specs.Positions.{has_positions, have_positions, may_lead};

use schema_model::{Home, Schema};
use state_model::{Row, Rows, Values, is_filtered};

// How many positions there are.
const POSITIONS: usize = 1 << 31;

/// Whether each array that goes by position has at most 2^31 values, and had where it was there, as `patch` asks of old and
/// new rows. It is near-linear in the number of rows.
pub fn have_positions(schema: &Schema, old: &Rows, new: &Rows) -> bool
    ensures { result ≡ have_positions schema.now old.now new.now }
{
    new.as_slice()
        .iter()
        .all(|entry| may_lead(schema, &entry.row, old.get(entry.who)))
}

// Whether the arrays that a row is and was are short.
fn may_lead(schema: &Schema, new: &Row, old: Option<&Row>) -> bool
    ensures { result ≡ may_lead schema.now new.now (option_copied old.entry) }
{
    match old {
        None => is_short(schema, new),
        Some(old) => has_positions(schema, old, new),
    }
}

// Whether the arrays that two rows are, of one number, are short.
fn has_positions(schema: &Schema, old: &Row, new: &Row) -> bool
    ensures { result ≡ has_positions schema.now old.now new.now }
{
    match (old, new) {
        (Row::Array(_, before), Row::Array(home, after)) => {
            is_short_array(schema, *home, before) && is_short_array(schema, *home, after)
        }
        _ => true,
    }
}

fn is_short(schema: &Schema, row: &Row) -> bool
    ensures { result ≡ is_short schema.now row.now }
{
    match row {
        Row::Array(home, values) => is_short_array(schema, *home, values),
        Row::Struct(_, _) | Row::Map(_, _) | Row::Set(_, _) => true,
    }
}

// Whether an array goes by reference, or has at most as many values as there are positions.
fn is_short_array(schema: &Schema, home: Home, values: &Values) -> bool
    ensures { result ≡ is_short schema.now (Array home values.now) }
{
    is_filtered(schema, home) || values.len() <= POSITIONS
}
