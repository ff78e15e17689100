//! Reads that are counted.
ghost use Rattle.std.specs.Prelude.{◌≡◌, ◌+◌, length};
ghost use Rattle.state_model.specs.Rows.{place_count, values_in};

use plain_rows::{Row, Rows};
use std::sync::ledger::Ledger;
use steps::Steps;

/// Counts so many reads.
pub fn count_reads<L: Ledger>(reads: usize, steps: &mut Steps<L>)
    ensures { steps.new ≡ steps.old + reads }
{
    for _ in 0..reads {
        steps.tick();
    }
}

// How many places a row has.
fn places_of(row: &Row) -> usize
    ensures { result ≡ length (values_in row.now) }
{
    match row {
        Row::Struct(_, fields) => fields.len(),
        Row::Map(_, items) => items.len(),
        Row::Array(_, values) => values.len(),
        Row::Set(_, items) => items.len(),
    }
}

/// Counts a read of each place of rows.
pub fn count_places<L: Ledger>(rows: &Rows, steps: &mut Steps<L>)
    ensures { steps.new ≡ steps.old + place_count rows.now }
{
    for entry in rows.as_slice() {
        count_reads(places_of(&entry.row), steps);
    }
}
