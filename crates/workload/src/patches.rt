//! The kernels over the rows that state bytes lead to.
ghost use Rattle.std.specs.Prelude.{IsTrue};
ghost use Rattle.canon_patch.specs.Positions.{have_positions};

use crate::fault::WorkFault;
use crate::frames::{changes, full_state};
use crate::game::schema;
use crate::sums::sum_of_rows;
use canon_patch::{apply_blocks, have_positions, patch};
use lists::Memory;
use patch_decoder::Decoder;
use plain_rows::Rows;
use schema_model::Schema;
use std::alloc::Global;

/// Makes the patch between the rows of so many players and those after every tenth one changed, so many times; where it
/// is to be applied, it is done to the old rows.
pub fn compare(alloc: Global, players: u32, times: u32, applied: bool) -> Result<u64, WorkFault> {
    let change = changes(alloc, players / 10)?;
    let mut decoder = Decoder::new(alloc, schema(alloc)?)?;
    decoder.full(&full_state(alloc, players)?)?;
    compare_around(alloc, &mut decoder, &change, times, applied)
}

// Between the rows before and after a change.
fn compare_around(
    alloc: Global,
    decoder: &mut Decoder,
    change: &[u8],
    times: u32,
    applied: bool,
) -> Result<u64, WorkFault> {
    let old = decoder.rows()?;
    decoder.patch(change)?;
    let new = decoder.rows()?;
    compare_rows(alloc, &old, &new, times, applied)
}

fn compare_rows(
    alloc: Global,
    old: &Rows,
    new: &Rows,
    times: u32,
    applied: bool,
) -> Result<u64, WorkFault> {
    let schema = schema(alloc)?;
    if !have_positions(&schema, old, new) {
        return Err(WorkFault::Refused);
    }
    let mut sum: u64 = 0;
    for _ in 0..times {
        sum = sum.wrapping_add(compare_once(alloc, &schema, old, new, applied)?);
    }
    Ok(sum)
}

fn compare_once(
    alloc: Global,
    schema: &Schema,
    old: &Rows,
    new: &Rows,
    applied: bool,
) -> Result<u64, Memory>
    requires { IsTrue (have_positions schema.now old.now new.now) }
{
    let blocks = patch(alloc, schema, old, new)?;
    if applied {
        let rows = apply_blocks(alloc, schema, old, &blocks)?;
        Ok(sum_of_rows(&rows))
    } else {
        Ok(blocks.len() as u64)
    }
}
