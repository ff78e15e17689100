//! The edits of a view, over a live state.
ghost use Rattle.std.specs.Prelude.{◌≡◌, ◌≤◌, ◌+◌, length, true};
ghost use Rattle.live_state.specs.Live.{rows_of, schema_of, swept_table};
ghost use Rattle.instance_table.specs.Behind.{places_behind};
ghost use Rattle.instance_table.specs.Table.{TableState};
ghost use Rattle.state_model.specs.Members.{live_members};
ghost use Rattle.view_edits.specs.Edited.{Costs, Hides, Shows};
ghost use Rattle.view_edits.specs.There.{are_there};

use crate::fault::EditFault;
use crate::in_place::show_in_place;
use live_state::LiveState;
use schema_model::Pair;
use std::sync::ledger::Ledger;
use steps::Steps;
use view_members::Members;

/// Adds a row under a tag, and every row that is reached from it through places that are untagged or have the tag, to a
/// view. A refused edit changes nothing. That the row isn't live, and that the view would be full, is told whatever
/// memory does. The pairs of a view are of rows that are there, and stay so. It takes a step for each place of these
/// rows.
pub fn show<L: Ledger>(
    live: &LiveState,
    members: &mut Members,
    pair: Pair,
    steps: &mut Steps<L>,
) -> Result<(), EditFault>
    ensures shows { Shows (schema_of live.now) (rows_of live.now) pair members.old members.new result }
    ensures cost { Costs (steps.old + places_behind (schema_of live.now) (rows_of live.now) pair.who pair.tag) steps.new result }
    ensures there { are_there (rows_of live.now) members.old.now ≡ true → are_there (rows_of live.now) members.new.now ≡ true }
{
    if members.has_room(live.table().len()) {
        show_in_memory(live, members, pair, steps)
    } else {
        show_in_place(live, members, pair, steps)
    }
}

// The same, where the view isn't full even with all rows that there are.
fn show_in_memory<L: Ledger>(
    live: &LiveState,
    members: &mut Members,
    pair: Pair,
    steps: &mut Steps<L>,
) -> Result<(), EditFault>
    requires { length members.old.kept + length (rows_of live.now) ≤ 65536 }
    ensures shows { Shows (schema_of live.now) (rows_of live.now) pair members.old members.new result }
    ensures cost { Costs (steps.old + places_behind (schema_of live.now) (rows_of live.now) pair.who pair.tag) steps.new result }
    ensures there { are_there (rows_of live.now) members.old.now ≡ true → are_there (rows_of live.now) members.new.now ≡ true }
{
    // The rows of a live state are sound: what is behind a row that is there is there too.
    live.know_rows();
    let pairs = live.expand(pair.who, pair.tag, steps)?;
    members.add_all(pairs.as_slice())?;
    Ok(())
}

/// Takes a row under a tag, and what `show` would add with it, out of a view. A refused edit changes nothing. That the row
/// isn't live is told whatever memory does. It takes a step for each place of these rows.
pub fn hide<L: Ledger>(
    live: &LiveState,
    members: &mut Members,
    pair: Pair,
    steps: &mut Steps<L>,
) -> Result<(), EditFault>
    ensures hides { Hides (schema_of live.now) (rows_of live.now) pair members.old members.new result }
    ensures cost { Costs (steps.old + places_behind (schema_of live.now) (rows_of live.now) pair.who pair.tag) steps.new result }
    ensures there { are_there (rows_of live.now) members.old.now ≡ true → are_there (rows_of live.now) members.new.now ≡ true }
{
    let pairs = live.expand(pair.who, pair.tag, steps)?;
    members.remove_all(pairs.as_slice());
    Ok(())
}

/// Takes the pairs of the rows that the last sweep freed out of a view whose pairs were of rows that were there before.
pub fn forget_freed(live: &LiveState, members: &mut Members)
    requires { (old : TableState) × (live.now.table ≡ swept_table old) × (are_there old.state.rows members.old.now ≡ true) }
    ensures members { members.new ≡ live_members (rows_of live.now) members.old }
    ensures there { are_there (rows_of live.now) members.new.now ≡ true }
{
    for who in live.table().swept() {
        members.forget_instance(*who);
    }
}
