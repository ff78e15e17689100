//! Whether a row reaches another.
ghost use Rattle.std.specs.Prelude.{◌≡◌, ◌≤◌, ◌++◌, [], ℕ, length, true, false, IfOk, OnOk};
ghost use Rattle.state_model.specs.Reached.{is_among, reached};
ghost use Rattle.state_model.specs.Rows.{is_live};
ghost use Rattle.state_model.specs.Sound.{are_sound};
ghost use Rattle.schema_model.specs.Classes.{Schema};
ghost use Rattle.plain_rows.specs.Links.{held_at};
ghost use Rattle.plain_rows.proofs.Walks.{Walked};
ghost use Rattle.instance_table.specs.Nodes.{rows_in};
ghost use Rattle.instance_table.specs.Table.{IsExact};
ghost use Rattle.instance_table.specs.Ways.{IsTurned, left_of, rows_along};

use crate::links::add_links;
use crate::nodes::Nodes;
use crate::roomy_list::RoomyList;
use crate::spare_walk::reaches_back;
use crate::way::Way;
use plain_rows::NumberSet;
use schema_model::{Memory, RefNum};
use std::alloc::Global;

// Adds the numbers to which a way leads on from the row of a number, where there is one.
fn add_next(nodes: &Nodes, way: Way, who: RefNum, waiting: &mut Vec<RefNum>) -> Result<(), Memory>
    ensures { OnOk result (waiting.new.items ≡ waiting.old.items ++ held_at (rows_along way nodes.now) who) }
{
    let Some(node) = nodes.get(who) else {
        return Ok(());
    };
    match way {
        Way::Links => add_links(&node.body, waiting),
        Way::Holders => {
            waiting.extend_from_slice(node.holders.as_slice())?;
            Ok(())
        }
    }
}

// A turn of a walk, which looks at one number that waits: whether it got to the end, or that nothing waits any more;
// nothing where it goes on.
fn turn(
    nodes: &Nodes,
    way: Way,
    end: RefNum,
    seen: &mut NumberSet,
    waiting: &mut Vec<RefNum>,
) -> Result<Option<bool>, Memory>
    ensures { (start : ℕ) → Walked (rows_along way nodes.now) start seen.old waiting.old.items → is_among end seen.old ≡ false
        → IfOk result (λ t. IsTurned (rows_along way nodes.now) start end (left_of (rows_along way nodes.now) seen.old waiting.old.items) seen.new waiting.new.items t) }
{
    nodes.know_rising();
    let Some(who) = waiting.pop() else {
        return Ok(Some(false));
    };
    if who == end {
        return Ok(Some(true));
    }
    if seen.insert(who)? {
        add_next(nodes, way, who, waiting)?;
    }
    Ok(None)
}

// Whether a way leads nowhere from the row of a number, as is seen at once.
fn is_end(nodes: &Nodes, way: Way, who: RefNum) -> bool
    ensures nowhere { result ≡ true → held_at (rows_along way nodes.now) who ≡ [] }
    ensures live { result ≡ false → is_live (rows_in nodes.now) who ≡ true }
{
    let Some(node) = nodes.get(who) else {
        return true;
    };
    match way {
        Way::Links => node.body.len() == 0,
        Way::Holders => node.holders.len() == 0,
    }
}

/// Whether one row reaches another by way of links. Where the one holds nothing, or nothing holds the other, that is
/// answered at once. Else it walks from both ends, a row of each in turn, along the links from the one and along the
/// holders from the other, until it gets to the other end or one side is spent. It looks once at each place and each
/// holder of the rows that it comes to, and at no others. Where memory is wanting for that, it walks back alone, in a
/// list with room for all rows.
pub fn reaches(
    alloc: Global,
    spare: &mut RoomyList,
    nodes: &Nodes,
    from: RefNum,
    to: RefNum,
) -> bool
    requires sound { (schema : Schema) × (are_sound schema (rows_in nodes.now) ≡ true) }
    requires exact { IsExact nodes.now }
    requires room { length nodes.now ≤ spare.old.room }
    ensures value { result ≡ is_among to (reached (rows_in nodes.now) from) }
    ensures kept { spare.old.room ≤ spare.new.room }
{
    nodes.know_rising();
    if from == to {
        return true;
    }
    if is_end(nodes, Way::Holders, to) {
        return false;
    }
    if is_end(nodes, Way::Links, from) {
        return false;
    }
    match meets(alloc, nodes, from, to) {
        Ok(found) => found,
        Err(Memory) => reaches_back(spare, nodes, from, to),
    }
}

// The same, by walking from both ends.
fn meets(alloc: Global, nodes: &Nodes, from: RefNum, to: RefNum) -> Result<bool, Memory>
    requires sound { (schema : Schema) × (are_sound schema (rows_in nodes.now) ≡ true) }
    requires exact { IsExact nodes.now }
    ensures { IfOk result (λ found. found ≡ is_among to (reached (rows_in nodes.now) from)) }
{
    let mut ahead = NumberSet::new(alloc);
    let mut links = Vec::new(alloc);
    links.push(from)?;
    let mut back = NumberSet::new(alloc);
    let mut holders = Vec::new(alloc);
    holders.push(to)?;
    loop {
        if let Some(found) = turn(nodes, Way::Links, to, &mut ahead, &mut links)? {
            return Ok(found);
        }
        if let Some(found) = turn(nodes, Way::Holders, from, &mut back, &mut holders)? {
            return Ok(found);
        }
    }
}
