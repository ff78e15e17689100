//! The blocks of a patch: those of the rows in both lists, then the new rows.
ghost use Rattle.std.specs.Prelude.{◌≡◌, ◌≤◌, ◌++◌, ◌||◌, IfOk, IfSome, IsTrue, None, OnOk, map, is_some, length, drop};
ghost use Rattle.std.specs.Option.{ForSome, option_map};
ghost use Rattle.state_model.specs.Rows.{numbers_of, row_at};
ghost use Rattle.state_model.specs.Reached.{is_among};
ghost use Rattle.wire_model.specs.Edits.{encoded, encoded_blocks};
ghost use Rattle.wire_model.specs.Frame.{patch};
ghost use Rattle.wire_model.specs.Patch.{common_block, common_blocks, is_short, new_blocks, new_edits};
ghost use Rattle.canon_patch.specs.Names.{block_encoded};
ghost use Rattle.canon_patch.specs.NewRows.{next_new};
ghost use Rattle.canon_patch.specs.Positions.{have_positions, may_lead};

use crate::marks::add_number;
use crate::names::{names_in_blocks, push_names};
use crate::row::{row_ops, whole_ops};
use crate::target::Target;
use lists::Seq;
use plain_rows::NumberSet;
use schema_model::{Memory, RefNum, Schema};
use state_model::{RowEntry, Rows};
use std::alloc::Global;
use wire_model::{Block, Blocks, Ops};

/// The patch that leads from old rows to new ones: first the blocks of the rows that are in both, rising, then each
/// new row whole, in the order in which the operations first name them. An array that goes by position has at most 2^31
/// values, and had where it was there (`have_positions`).
///
/// It is near-linear in the rows and their places. `Err` is out of memory.
#[tactic(auto, using(crate::proofs::Encoded::patch_encoded))]
pub fn patch(alloc: Global, schema: &Schema, old: &Rows, new: &Rows) -> Result<Blocks, Memory>
    requires { IsTrue (have_positions schema.now old.now new.now) }
    ensures { IfOk result (λ blocks. blocks ≡ patch schema.now old.now new.now) }
{
    let to = Target {
        alloc,
        schema,
        rows: new,
    };
    let mut blocks = common_blocks(&to, old)?;
    let names = names_in_blocks(alloc, blocks.as_slice())?;
    push_new_blocks(&to, &mut blocks, old, names)?;
    Ok(blocks)
}

// The blocks of the numbers in both lists, rising.
fn common_blocks(to: &Target<'_>, old: &Rows) -> Result<Blocks, Memory>
    requires { IsTrue (have_positions to.now.schema.now old.now to.now.rows.now) }
    ensures { IfOk result (λ blocks. blocks ≡ encoded_blocks (common_blocks to.now.schema.now old.now to.now.rows.now)) }
{
    let mut blocks = Seq::new(to.alloc);
    for entry in to.rows.as_slice() {
        push_common(to, &mut blocks, old, entry)?;
    }
    Ok(blocks)
}

// The block of a new row, where there is an old one of its number.
#[tactic(auto, using(crate::proofs::Encoded::block_is_encoded))]
fn push_common(
    to: &Target<'_>,
    blocks: &mut Blocks,
    old: &Rows,
    entry: &RowEntry,
) -> Result<(), Memory>
    requires { IsTrue (may_lead to.now.schema.now entry.now.row (row_at old.now entry.now.who)) }
    ensures { OnOk result (blocks.new ≡ blocks.old ++ encoded_blocks (common_block to.now.schema.now to.now.rows.now entry.now (row_at old.now entry.now.who))) }
{
    match old.get(entry.who) {
        None => Ok(()),
        Some(row) => {
            let ops = row_ops(to, row, &entry.row)?;
            push_block(blocks, entry.who, ops)
        }
    }
}

// A block, where it has an operation.
fn push_block(blocks: &mut Blocks, holder: RefNum, ops: Ops) -> Result<(), Memory>
    ensures { OnOk result (blocks.new ≡ blocks.old ++ block_encoded holder ops) }
{
    if ops.is_empty() {
        return Ok(());
    }
    blocks.push(Block { holder, ops })
}

// The blocks of new rows, each whole, in the order in which operations first name them.
fn push_new_blocks(
    to: &Target<'_>,
    blocks: &mut Blocks,
    old: &Rows,
    names: Vec<u32>,
) -> Result<(), Memory>
    requires { IsTrue (have_positions to.now.schema.now old.now to.now.rows.now) }
    ensures { OnOk result (blocks.new ≡ blocks.old ++ encoded_blocks (new_blocks (length to.now.rows.now) to.now.schema.now to.now.rows.now (numbers_of old.now) names.items)) }
{
    let mut names = names;
    let mut at = 0;
    let mut done = NumberSet::new(to.alloc);
    for _ in 0..to.rows.as_slice().len() {
        let Some((who, behind)) = next_named(names.as_slice(), at, old, &done) else {
            return Ok(());
        };
        add_number(&mut done, RefNum(who))?;
        at = behind;
        let ops = new_ops(to, RefNum(who))?;
        push_names(&mut names, ops.as_slice())?;
        push_block(blocks, RefNum(who), ops)?;
    }
    Ok(())
}

// The first number from a place on that isn't done, and the place behind it.
fn next_named(names: &[u32], from: usize, old: &Rows, done: &NumberSet) -> Option<(u32, usize)>
    ensures within { ForSome result (λ n. n.1 ≤ length names.now) }
    ensures fresh { ForSome result (λ n. row_at old.now n.0 ≡ None) }
    ensures next { option_map (λ n. (n.0, drop n.1 names.now)) result ≡ next_new (λ k. is_some (row_at old.now k) || is_among k done.now) (drop from names.now) }
{
    for at in from..names.len() {
        let name = names[at];
        if !is_done(old, done, name) {
            return Some((name, at + 1));
        }
    }
    None
}

// Whether a row of this number is an old one or was written.
fn is_done(old: &Rows, done: &NumberSet, who: u32) -> bool
    ensures { result ≡ (is_some (row_at old.now who) || is_among who done.now) }
{
    old.get(RefNum(who)).is_some() || done.has(RefNum(who))
}

// The operations of a whole new row, where it is there.
fn new_ops(to: &Target<'_>, who: RefNum) -> Result<Ops, Memory>
    requires { IfSome (row_at to.now.rows.now who) (λ r. IsTrue (is_short to.now.schema.now r)) }
    ensures { IfOk result (λ ops. ops ≡ map encoded (new_edits to.now.schema.now to.now.rows.now who)) }
{
    match to.rows.get(who) {
        None => Ok(Seq::new(to.alloc)),
        Some(row) => whole_ops(to, row),
    }
}
