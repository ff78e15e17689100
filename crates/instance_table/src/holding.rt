//! How holders of a row come and go.
ghost use Rattle.std.specs.Prelude.{◌≡◌, ◌==◌, filter, not, is_ok, true, false, IfSome, if◌then◌else◌};
ghost use Rattle.std.specs.Option.{option_map_or};
ghost use Rattle.instance_table.specs.Nodes.{at_slot, held_less, held_more, held_not, rested, wakes, woken};
ghost use Rattle.instance_table.specs.Bodies.{CanEdit, row_of, takes_out};
ghost use Rattle.instance_table.specs.Changes.{edited_node};
ghost use Rattle.instance_table.specs.Found.{item_number};
ghost use Rattle.instance_table.specs.Holders.{without_one};

use crate::edits;
use crate::node::Node;
use schema_model::{Memory, RefNum};
use state_model::Command;
use std::alloc::Global;
use trees::Slot;

/// A command changes the places of the row in a slot, where there is one. What only takes places out takes no memory.
pub fn edit(
    slot: &mut Slot<Node>,
    alloc: Global,
    command: &Command,
    number: Option<u32>,
) -> Result<(), Memory>
    requires number { IfSome slot.old.item (λ n. number ≡ item_number command.now (row_of n.body)) }
    requires can { IfSome slot.old.item (λ n. CanEdit command.now n.body) }
    ensures after { slot.new ≡ (if is_ok result then at_slot (edited_node command.now) slot.old else slot.old) }
    ensures sure { takes_out command.now ≡ true → is_ok result ≡ true }
{
    match &mut slot.item {
        Some(node) => edits::edit(&mut node.body, alloc, command, number),
        None => Ok(()),
    }
}

/// A place more holds the row in a slot.
pub fn hold(slot: &mut Slot<Node>, holder: RefNum) -> Result<(), Memory>
    ensures { slot.new ≡ (if is_ok result then at_slot (held_more holder) slot.old else slot.old) }
{
    match &mut slot.item {
        Some(node) => node.holders.add(holder),
        None => Ok(()),
    }
}

// Where nothing holds the row it waits for the next sweep. Answers whether it didn't before.
fn wake(node: &mut Node) -> bool
    ensures value { result ≡ wakes node.old.holders node.old.waits }
    ensures after { node.new ≡ woken node.old.holders node.old }
{
    if node.holders.len() > 0 || node.waits {
        return false;
    }
    node.waits = true;
    true
}

/// A place less of a holder holds the row in a slot. Answers whether the row waits only from now on.
pub fn let_go(slot: &mut Slot<Node>, holder: RefNum) -> bool
    ensures value { result ≡ option_map_or (λ n. wakes (without_one holder n.holders) n.waits) slot.old.item false }
    ensures after { slot.new ≡ at_slot (held_less holder) slot.old }
{
    match &mut slot.item {
        Some(node) => {
            node.holders.take_one(holder);
            wake(node)
        }
        None => false,
    }
}

/// No place of a holder holds the row in a slot any more. Answers whether the row waits only from now on.
pub fn let_go_all(slot: &mut Slot<Node>, holder: RefNum) -> bool
    ensures value { result ≡ option_map_or (λ n. wakes (filter (λ m. not (m == holder)) n.holders) n.waits) slot.old.item false }
    ensures after { slot.new ≡ at_slot (held_not holder) slot.old }
{
    match &mut slot.item {
        Some(node) => {
            node.holders.take_all(holder);
            wake(node)
        }
        None => false,
    }
}

/// The row in a slot doesn't wait any more.
pub fn rest(slot: &mut Slot<Node>)
    ensures { slot.new ≡ at_slot rested slot.old }
{
    if let Some(node) = &mut slot.item {
        node.waits = false;
    }
}
