//! The patch between two shared views.
ghost use Rattle.std.specs.Prelude.{◌≡◌, ◌+◌, ◌≤◌, IfOk};
ghost use Rattle.state_model.specs.Members.{no_members};
ghost use Rattle.view_counts.specs.Settled.{IsSettledAtTick, encoding_steps, shared_part_of};

use canon_patch::patch;
use live_state::LiveState;
use schema_model::Memory;
use std::alloc::Global;
use std::sync::ledger::Ledger;
use steps::Steps;
use view_counts::{ViewCounts, count_places};
use wire_model::Blocks;

/// The shared part of a tick: the blocks that lead from the shared view of the last tick to that of this one. The view is
/// settled at this tick, without members. It takes a step for each place of the two views.
pub fn encode_shared<L: Ledger>(
    alloc: Global,
    live: &LiveState,
    shared: &ViewCounts,
    steps: &mut Steps<L>,
) -> Result<Blocks, Memory>
    requires { IsSettledAtTick live.now no_members shared.now }
    ensures part { IfOk result (λ part. part ≡ shared_part_of live.now shared.now) }
    ensures cost { steps.new ≤ steps.old + encoding_steps shared.now }
{
    let (before, after) = (shared.before(), shared.after());
    count_places(before, steps);
    count_places(after, steps);
    patch(alloc, live.schema(), before, after)
}
