//! All rows.
ghost use Rattle.std.specs.Prelude.{◌≡◌, ◌==◌, [], ◌∷◌, ◌++◌, false, filter, length, not, is_ok, true, IfOk, IfSome, if◌then◌else◌, option_copied};
ghost use Rattle.std.specs.Option.{option_map_or};
ghost use Rattle.lists.specs.Rising.{IsAbove, RisesFrom, remove};
ghost use Rattle.trees.specs.Slots.{entries_in, slot_number};
ghost use Rattle.instance_table.specs.Bodies.{CanEdit, row_of, takes_out};
ghost use Rattle.instance_table.specs.Changes.{edited_node};
ghost use Rattle.instance_table.specs.Found.{item_number};
ghost use Rattle.instance_table.specs.Holders.{without_one};
ghost use Rattle.instance_table.specs.Nodes.{at_node, held_less, held_more, held_not, node_at, number_of, rested, rows_in, wakes};

use crate::holding;
use crate::node::Node;
use crate::plan::Located;
use lists::{push_exact, search, search_near};
use schema_model::{Memory, RefNum};
use state_model::{Command, RowEntry, Rows};
use std::alloc::Global;
use std::marker::Model;
use std::mem;
use trees::{Slot, close_holes, drop_last_holes};

/// The rows by their numbers. One is found at once where no number was left out before it, else in logarithmic time.
/// One that is taken out leaves a hole; holes are closed when they are more than the rows.
#[derive(Drop)]
pub struct Nodes {
    slots: Vec<Slot<Node>>,
    // How many of them are no holes.
    len: usize,
}

impl Model for Nodes {
    ghost use Rattle.std.specs.Prelude.{◌≡◌, ℕ, List, length};
    ghost use Rattle.lists.specs.Rising.{RisesFrom};
    ghost use Rattle.trees.specs.Slots.{entries_in, slot_number};
    ghost use Rattle.instance_table.specs.declared.node.Node.{Node as NodeValue};

    ghost Value = { List (ℕ × NodeValue) };

    ghost view = { λ n. entries_in n.slots.items };

    ghost invariant = { λ n. RisesFrom slot_number 0 n.slots.items × (n.len ≡ length (entries_in n.slots.items)) };
}

impl Nodes {
    /// No rows. They take no memory.
    pub fn new(alloc: Global) -> Nodes
        ensures { result ≡ [] }
    {
        Nodes {
            slots: Vec::new(alloc),
            len: 0,
        }
    }

    /// The row of a number.
    pub fn get(&self, who: RefNum) -> Option<&Node>
        ensures { option_copied result ≡ node_at self.now who }
    {
        match search(self.slots.as_slice(), who.0) {
            Ok(at) => self.slots[at].item.as_ref(),
            Err(_) => None,
        }
    }

    /// Where the row of a number stands, if there is one. It is looked for here once: what is given this place finds the row
    /// at once.
    pub fn place(&self, who: RefNum) -> usize {
        match search(self.slots.as_slice(), who.0) {
            Ok(at) => at,
            Err(at) => at,
        }
    }

    /// The row of a number, which is thought to stand at a place.
    pub fn get_near(&self, place: usize, who: RefNum) -> Option<&Node>
        ensures { option_copied result ≡ node_at self.now who }
    {
        match search_near(self.slots.as_slice(), place, who.0) {
            Ok(at) => self.slots[at].item.as_ref(),
            Err(_) => None,
        }
    }

    /// How many rows there are.
    pub fn len(&self) -> usize
        ensures value { result ≡ length self.now }
        ensures rises { RisesFrom number_of 0 self.now }
    {
        self.len
    }

    /// The rows rise by their numbers. It does nothing else than to say so.
    pub fn know_rising(&self)
        ensures { RisesFrom number_of 0 self.now }
    {
        let _ = &self.slots;
    }

    /// Adds a row with a number above all others.
    pub fn push(&mut self, who: RefNum, node: Node) -> Result<(), Memory>
        requires { IsAbove number_of who self.old }
        ensures { self.new ≡ (if is_ok result then self.old ++ (who, node) ∷ [] else self.old) }
    {
        drop_last_holes(&mut self.slots);
        let slot = Slot {
            number: who.0,
            item: Some(node),
        };
        push_exact(&mut self.slots, slot)?;
        self.len += 1;
        Ok(())
    }

    /// Takes a row out.
    pub fn remove(&mut self, who: RefNum) -> Option<Node>
        ensures found { result ≡ node_at self.old who }
        ensures rest { self.new ≡ remove number_of who self.old }
        ensures rises { RisesFrom number_of 0 self.old }
    {
        let node = take_out(&mut self.slots, who.0)?;
        self.len -= 1;
        if self.slots.len() / 2 > self.len {
            close_holes(&mut self.slots);
        }
        Some(node)
    }

    /// A command changes the places of a row. What only takes places out takes no memory.
    pub fn edit(
        &mut self,
        alloc: Global,
        who: RefNum,
        command: &Command,
        located: &Located,
    ) -> Result<(), Memory>
        requires number { IfSome (node_at self.old who) (λ n. located.now.number ≡ item_number command.now (row_of n.body)) }
        requires can { IfSome (node_at self.old who) (λ n. CanEdit command.now n.body) }
        ensures after { self.new ≡ (if is_ok result then at_node who (edited_node command.now) self.old else self.old) }
        ensures sure { takes_out command.now ≡ true → is_ok result ≡ true }
        ensures rises { RisesFrom number_of 0 self.old }
    {
        let Ok(at) = search_near(self.slots.as_slice(), located.place, who.0) else {
            return Ok(());
        };
        holding::edit(&mut self.slots[at], alloc, command, located.number)
    }

    /// All rows, each with its number.
    pub fn copy_rows(&self, alloc: Global) -> Result<Rows, Memory>
        ensures { IfOk result (λ r. r ≡ rows_in self.now) }
    {
        copy_rows(self.slots.as_slice(), alloc)
    }

    /// A place more holds a row.
    pub fn hold(&mut self, who: RefNum, holder: RefNum) -> Result<(), Memory>
        ensures after { self.new ≡ (if is_ok result then at_node who (held_more holder) self.old else self.old) }
        ensures rises { RisesFrom number_of 0 self.old }
    {
        let Ok(at) = search(self.slots.as_slice(), who.0) else {
            return Ok(());
        };
        holding::hold(&mut self.slots[at], holder)
    }

    /// A place less of a holder holds a row. Answers whether the row waits only from now on.
    pub fn let_go(&mut self, who: RefNum, holder: RefNum) -> bool
        ensures value { result ≡ option_map_or (λ n. wakes (without_one holder n.holders) n.waits) (node_at self.old who) false }
        ensures after { self.new ≡ at_node who (held_less holder) self.old }
        ensures rises { RisesFrom number_of 0 self.old }
    {
        let Ok(at) = search(self.slots.as_slice(), who.0) else {
            return false;
        };
        holding::let_go(&mut self.slots[at], holder)
    }

    /// No place of a holder holds a row any more. Answers whether the row waits only from now on.
    pub fn let_go_all(&mut self, who: RefNum, holder: RefNum) -> bool
        ensures value { result ≡ option_map_or (λ n. wakes (filter (λ m. not (m == holder)) n.holders) n.waits) (node_at self.old who) false }
        ensures after { self.new ≡ at_node who (held_not holder) self.old }
        ensures rises { RisesFrom number_of 0 self.old }
    {
        let Ok(at) = search(self.slots.as_slice(), who.0) else {
            return false;
        };
        holding::let_go_all(&mut self.slots[at], holder)
    }

    /// A row doesn't wait any more.
    pub fn rest(&mut self, who: RefNum)
        ensures after { self.new ≡ at_node who rested self.old }
        ensures rises { RisesFrom number_of 0 self.old }
    {
        let Ok(at) = search(self.slots.as_slice(), who.0) else {
            return;
        };
        holding::rest(&mut self.slots[at]);
    }
}

// The rows in slots, each with its number.
fn copy_rows(slots: &[Slot<Node>], alloc: Global) -> Result<Rows, Memory>
    requires { RisesFrom slot_number 0 slots.now }
    ensures { IfOk result (λ r. r ≡ rows_in (entries_in slots.now)) }
{
    let mut rows = Rows::new(alloc);
    for slot in slots {
        if let Some(node) = &slot.item {
            rows.push(RowEntry {
                who: RefNum(slot.number),
                row: node.body.copy_row(alloc)?,
            })?;
        }
    }
    Ok(rows)
}

// Takes the row of a number out. A hole is left.
fn take_out(slots: &mut Vec<Slot<Node>>, number: u32) -> Option<Node>
    requires { RisesFrom slot_number 0 slots.old.items }
    ensures found { result ≡ node_at (entries_in slots.old.items) number }
    ensures rest { entries_in slots.new.items ≡ remove number_of number (entries_in slots.old.items) }
    ensures rises { RisesFrom slot_number 0 slots.new.items }
    ensures before { RisesFrom number_of 0 (entries_in slots.old.items) }
{
    let Ok(at) = search(slots.as_slice(), number) else {
        return None;
    };
    mem::replace(&mut slots[at], Slot { number, item: None }).item
}
