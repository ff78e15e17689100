//! What blocks make of rows.
ghost use Rattle.std.specs.Prelude.{◌≡◌, List, map, IfOk, OnOk};
ghost use Rattle.state_model.specs.declared.row.RowEntry.{RowEntry};
ghost use Rattle.lists.specs.Rising.{RisesFrom};
ghost use Rattle.state_model.specs.Rows.{number_of};
ghost use Rattle.state_model.specs.Reached.{freed};
ghost use Rattle.wire_model.specs.Effect.{apply_block, edited_row};
ghost use Rattle.wire_model.specs.Frame.{patch as patch_of};
ghost use Rattle.wire_model.specs.Resolved.{applied};
ghost use Rattle.wire_ops.specs.PlainEdits.{plain_edit};
ghost use Rattle.wire_laws.specs.PatchLaw.{Patchable};
ghost use Rattle.canon_patch.specs.Applying.{meant};

use crate::linked::{add_linked, holder_kind};
use lists::Memory;
use schema_model::Schema;
use state_model::{Row, RowEntry, Rows};
use std::alloc::Global;
use trees::Tree;
use wire_model::{Block, Blocks, Ops};
use wire_ops::Holder;

/// The rows after blocks: each operation is done to its holder, and the rows that it links to are there,
/// empty where they weren't. Nothing is freed.
///
/// It is near-linear in the rows, their places and the operations. `Err` is out of memory.
#[tactic(auto, using(crate::proofs::Applying::patch_freed))]
pub fn apply_blocks(
    alloc: Global,
    schema: &Schema,
    rows: &Rows,
    blocks: &Blocks,
) -> Result<Rows, Memory>
    ensures applied { IfOk result (λ after. after ≡ applied schema.now rows.now blocks.now) }
    // Where the blocks are the patch to new rows, these are what is left when what nothing holds is freed.
    ensures law { IfOk result (λ after. (new : List RowEntry) → Patchable schema.now rows.now new → blocks.now ≡ patch_of schema.now rows.now new → freed after ≡ new) }
{
    let tree = blocks_done(alloc, schema, rows, blocks)?;
    rows_of(alloc, tree)
}

// The rows after blocks, as a tree.
fn blocks_done(
    alloc: Global,
    schema: &Schema,
    rows: &Rows,
    blocks: &Blocks,
) -> Result<Tree<RowEntry>, Memory>
    ensures { IfOk result (λ tree. tree ≡ applied schema.now rows.now blocks.now) }
{
    let mut tree = tree_of(alloc, rows)?;
    for block in blocks.as_slice() {
        do_block(alloc, schema, &mut tree, block)?;
    }
    Ok(tree)
}

// Does a block to rows.
fn do_block(
    alloc: Global,
    schema: &Schema,
    rows: &mut Tree<RowEntry>,
    block: &Block,
) -> Result<(), Memory>
    requires { RisesFrom number_of 0 rows.old }
    ensures { OnOk result (rows.new ≡ apply_block rows.old (meant schema.now rows.old block.now)) }
{
    let kind = holder_kind(alloc, rows, block.holder);
    add_linked(alloc, schema, rows, &kind, &block.ops)?;
    let Some(entry) = rows.remove(block.holder.0) else {
        return Ok(());
    };
    let row = edited(alloc, entry.row, &block.ops)?;
    rows.put(RowEntry {
        who: block.holder,
        row,
    })?;
    Ok(())
}

// A row with operations done to it.
fn edited(alloc: Global, row: Row, ops: &Ops) -> Result<Row, Memory>
    ensures { IfOk result (λ after. after ≡ edited_row (map plain_edit ops.now) row) }
{
    let mut holder = Holder::open(alloc, row)?;
    for op in ops.as_slice() {
        holder = holder.apply(alloc, op)?;
    }
    holder.close(alloc)
}

/// Copies of rows, as a tree.
pub fn tree_of(alloc: Global, rows: &Rows) -> Result<Tree<RowEntry>, Memory>
    ensures rows { IfOk result (λ tree. tree ≡ rows.now) }
    ensures rises { RisesFrom number_of 0 rows.now }
{
    let mut tree = Tree::new(alloc);
    for entry in rows.as_slice() {
        tree.put(entry.copy(alloc)?)?;
    }
    Ok(tree)
}

/// The rows of a tree.
pub fn rows_of(alloc: Global, tree: Tree<RowEntry>) -> Result<Rows, Memory>
    ensures { IfOk result (λ rows. rows ≡ tree) }
{
    Ok(Rows::from_rising(tree.into_rising(alloc)?))
}
