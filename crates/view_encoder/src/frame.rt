//! The two parts of a state frame.
ghost use Rattle.std.specs.Prelude.{◌≡◌, ◌+◌, ◌≤◌, ◌++◌, true, false, IfOk, IsTrue};
ghost use Rattle.state_model.specs.Shown.{shared as shared_rows};
ghost use Rattle.wire_model.specs.Frame.{patch as patch_of};
ghost use Rattle.wire_model.specs.OpBytes.{block_bytes};
ghost use Rattle.wire_model.specs.Resolved.{applied};
ghost use Rattle.block_laws.specs.Writable.{are_writable};
ghost use Rattle.canon_patch.specs.Positions.{have_positions};
ghost use Rattle.view_counts.specs.Settled.{AreSettled, encoding_steps, frame_of, full_state_of, settling_steps};

use canon_patch::{apply_blocks, patch};
use live_state::LiveState;
use plain_rows::{Rows, permitted};
use schema_model::{Bytes, Memory, Schema};
use std::alloc::Global;
use std::sync::ledger::Ledger;
use steps::Steps;
use view_counts::{ViewCounts, count_places, count_reads};
use view_members::Members;
use wire_model::Blocks;
use wire_ops::write_blocks;

/// The state bytes of a tick for one client: the shared part, and behind it the view part, which leads from what the
/// shared part leaves of its old view to its view now. Both views are settled at this tick, and the part is that of the
/// shared one. It takes a step for each place of the client's views.
pub fn encode_view<L: Ledger>(
    alloc: Global,
    live: &LiveState,
    _members: &Members,
    _shared: &ViewCounts,
    view: &ViewCounts,
    part: &Blocks,
    steps: &mut Steps<L>,
) -> Result<Bytes, Memory>
    requires { AreSettled live.now _members.now _shared.now view.now part.now }
    ensures bytes { IfOk result (λ bytes. bytes ≡ frame_of live.now _shared.now view.now) }
    ensures cost { steps.new ≤ steps.old + encoding_steps view.now }
{
    count_places(view.before(), steps);
    count_places(view.after(), steps);
    let schema = live.schema();
    let own = view_part(alloc, schema, view.before(), view.after(), part)?;
    both_parts(alloc, part, &own)
}

/// The full state of a client: its permitted view now, from the root alone. It takes a step for each place of the state,
/// and for each pair.
pub fn encode_full<L: Ledger>(
    alloc: Global,
    live: &LiveState,
    members: &Members,
    steps: &mut Steps<L>,
) -> Result<Bytes, Memory>
    ensures bytes { IfOk result (λ bytes. bytes ≡ full_state_of live.now members.now) }
    ensures cost { steps.new ≤ steps.old + settling_steps live.now members.now }
{
    let rows = live.rows()?;
    count_places(&rows, steps);
    let pairs = members.pairs()?;
    count_reads(pairs.len(), steps);
    let schema = live.schema();
    let root = Rows::root_alone(alloc, schema)?;
    let part = shared_part(alloc, schema, &root, &rows)?;
    let view = permitted(alloc, schema, &rows, pairs.as_slice())?;
    let own = view_part(alloc, schema, &root, &view, &part)?;
    both_parts(alloc, &part, &own)
}

// The shared part of a full state: the patch from the root alone to what everybody sees.
fn shared_part(alloc: Global, schema: &Schema, root: &Rows, rows: &Rows) -> Result<Blocks, Memory>
    requires { IsTrue (have_positions schema.now root.now (shared_rows schema.now rows.now)) }
    ensures { IfOk result (λ part. part ≡ patch_of schema.now root.now (shared_rows schema.now rows.now)) }
{
    let shared = permitted(alloc, schema, rows, &[])?;
    patch(alloc, schema, root, &shared)
}

// The view part: the patch to the new view from what the shared part leaves of the old one.
fn view_part(
    alloc: Global,
    schema: &Schema,
    old: &Rows,
    new: &Rows,
    part: &Blocks,
) -> Result<Blocks, Memory>
    requires { IsTrue (have_positions schema.now (applied schema.now old.now part.now) new.now) }
    ensures { IfOk result (λ own. own ≡ patch_of schema.now (applied schema.now old.now part.now) new.now) }
{
    let left = apply_blocks(alloc, schema, old, part)?;
    patch(alloc, schema, &left, new)
}

// The bytes of the shared part, and behind them those of the view part.
fn both_parts(alloc: Global, part: &Blocks, own: &Blocks) -> Result<Bytes, Memory>
    requires shared { IsTrue (are_writable part.now) }
    requires own { IsTrue (are_writable own.now) }
    ensures { IfOk result (λ bytes. bytes ≡ block_bytes part.now true ++ block_bytes own.now false) }
{
    let mut out = Vec::new(alloc);
    write_blocks(&mut out, part, true)?;
    write_blocks(&mut out, own, false)?;
    Ok(Bytes::from_vec(out))
}
