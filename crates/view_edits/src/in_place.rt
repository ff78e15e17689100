//! A view edit whose pairs are found and made on the stack.
ghost use Rattle.std.specs.Prelude.{◌≡◌, ◌≤◌, ◌+◌, length, take, true};
ghost use Rattle.live_state.specs.Live.{pairs_of, rows_of, schema_of};
ghost use Rattle.instance_table.specs.Behind.{places_behind};
ghost use Rattle.view_members.specs.Sets.{Adds};
ghost use Rattle.view_edits.specs.Edited.{Costs, Shows};
ghost use Rattle.view_edits.specs.There.{are_there};

use crate::fault::EditFault;
use instance_table::FixedRoom;
use live_state::LiveState;
use schema_model::{Pair, RefNum, Tag};
use std::sync::ledger::Ledger;
use steps::Steps;
use view_members::{MemberFault, Members};

/// How many rows a state may have.
const ROWS: usize = 16_384;

/// What `show` does. It finds what is behind the row in a room of 320 KiB on the stack, and makes 128 KiB of pairs there,
/// so that only the view itself takes memory.
#[inline(never)]
pub fn show_in_place<L: Ledger>(
    live: &LiveState,
    members: &mut Members,
    pair: Pair,
    steps: &mut Steps<L>,
) -> Result<(), EditFault>
    ensures shows { Shows (schema_of live.now) (rows_of live.now) pair members.old members.new result }
    ensures cost { Costs (steps.old + places_behind (schema_of live.now) (rows_of live.now) pair.who pair.tag) steps.new result }
    ensures there { are_there (rows_of live.now) members.old.now ≡ true → are_there (rows_of live.now) members.new.now ≡ true }
{
    live.know_rows();
    let table = live.table();
    let mut room = FixedRoom::new();
    if !table.see_behind(pair.who, pair.tag, &mut room, steps) {
        return Err(EditFault::NoRef);
    }
    add_under(members, room.seen(), pair.tag)?;
    Ok(())
}

// Adds these rows under a tag.
fn add_under(members: &mut Members, numbers: &[u32], tag: Tag) -> Result<(), MemberFault>
    requires { length numbers.now ≤ 16384 }
    ensures { Adds (pairs_of numbers.now tag) members.old members.new result }
{
    let mut pairs = [Pair {
        who: RefNum(0),
        tag,
    }; ROWS];
    put_pairs(&mut pairs, numbers, tag);
    members.add_all(&pairs[..numbers.len()])
}

// The first pairs are these rows, each under the tag.
fn put_pairs(pairs: &mut [Pair], numbers: &[u32], tag: Tag)
    requires { length numbers.now ≤ length pairs.old }
    ensures { take (length numbers.now) pairs.new ≡ pairs_of numbers.now tag }
{
    for (at, who) in numbers.iter().enumerate() {
        pairs[at] = Pair {
            who: RefNum(*who),
            tag,
        };
    }
}
