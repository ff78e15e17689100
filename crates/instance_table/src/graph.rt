//! All rows, who holds each, and which of them the next sweep has to look at.
ghost use Rattle.std.specs.Prelude.{◌≡◌, ◌==◌, ◌<◌, ◌≤◌, ◌^◌, [], ◌∷◌, ◌++◌, false, filter, length, not, true, IfSome, OnErr, OnOk, None, is_ok, if◌then◌else◌, option_copied, option_and_then, ℕ};
ghost use Rattle.std.specs.Option.{option_map_or, option_to_list};
ghost use Rattle.lists.specs.Rising.{IsAbove, RisesFrom, remove};
ghost use Rattle.instance_table.specs.Bodies.{CanEdit, row_of, takes_out};
ghost use Rattle.instance_table.specs.Changes.{edited_node};
ghost use Rattle.instance_table.specs.Found.{item_number};
ghost use Rattle.instance_table.specs.Graph.{waits_at, with_loose};
ghost use Rattle.instance_table.specs.Holders.{without_one};
ghost use Rattle.instance_table.specs.Nodes.{at_node, held_less, held_more, held_not, node_at, number_of, rested, wakes};

use crate::body::Body;
use crate::holders::Holders;
use crate::node::Node;
use crate::nodes::Nodes;
use crate::plan::Located;
use crate::roomy_list::RoomyList;
use schema_model::{Memory, RefNum};
use state_model::Command;
use std::alloc::Global;
use std::marker::Model;

/// The rows by their numbers. Beside them stands a list of those that the next sweep has to look at: each row that
/// nothing holds is among them. It has room for all rows, so that to let a row go takes no memory.
#[derive(Drop)]
pub struct Graph {
    nodes: Nodes,
    loose: RoomyList,
}

impl Model for Graph {
    ghost use Rattle.std.specs.Prelude.{◌≤◌, length};
    ghost use Rattle.instance_table.specs.Graph.{AreListed, GraphState};

    ghost Value = { GraphState };

    ghost view = { λ g. record { nodes = g.nodes; loose = g.loose.numbers } };

    ghost invariant = { λ g. AreListed g.nodes g.loose.numbers × (length g.nodes ≤ g.loose.room) };
}

impl Graph {
    /// No rows. They take no memory.
    pub fn new(alloc: Global) -> Graph
        ensures { result ≡ record { nodes = []; loose = [] } }
    {
        Graph {
            nodes: Nodes::new(alloc),
            loose: RoomyList::new(alloc),
        }
    }

    /// The row of a number.
    pub fn get(&self, who: RefNum) -> Option<&Node>
        ensures { option_copied result ≡ node_at self.now.nodes who }
    {
        self.nodes.get(who)
    }

    /// Adds a row that nothing holds, with a number above all others. It waits for the next sweep.
    pub fn add(&mut self, alloc: Global, who: RefNum, body: Body) -> Result<(), Memory>
        requires above { IsAbove number_of who self.old.nodes }
        requires few { length self.old.nodes < 2 ^ 32 }
        ensures ok { OnOk result (self.new ≡ record {
          nodes = self.old.nodes ++ (who, record { body = body; holders = []; waits = true }) ∷ [];
          loose = self.old.loose ++ who ∷ [];
        }) }
        ensures err { OnErr result (self.new ≡ self.old) }
    {
        self.loose.reserve(self.nodes.len() + 1)?;
        let node = Node {
            body,
            holders: Holders::new(alloc),
            waits: true,
        };
        self.nodes.push(who, node)?;
        self.loose.add(who);
        Ok(())
    }

    /// How many rows there are.
    pub fn len(&self) -> usize
        ensures value { result ≡ length self.now.nodes }
        ensures rises { RisesFrom number_of 0 self.now.nodes }
    {
        self.nodes.len()
    }

    /// The rows by their numbers.
    pub fn nodes(&self) -> &Nodes
        ensures { result.now ≡ self.now.nodes }
    {
        &self.nodes
    }

    /// A command changes the places of a row. What only takes places out takes no memory.
    pub fn edit(
        &mut self,
        alloc: Global,
        who: RefNum,
        command: &Command,
        located: &Located,
    ) -> Result<(), Memory>
        requires number { IfSome (node_at self.old.nodes who) (λ n. located.now.number ≡ item_number command.now (row_of n.body)) }
        requires can { IfSome (node_at self.old.nodes who) (λ n. CanEdit command.now n.body) }
        ensures after { self.new ≡ (if is_ok result then record self.old { nodes = at_node who (edited_node command.now) self.old.nodes } else self.old) }
        ensures sure { takes_out command.now ≡ true → is_ok result ≡ true }
    {
        self.nodes.edit(alloc, who, command, located)
    }

    /// A place more holds a row.
    pub fn hold(&mut self, who: RefNum, holder: RefNum) -> Result<(), Memory>
        ensures ok { OnOk result (self.new ≡ record self.old { nodes = at_node who (held_more holder) self.old.nodes }) }
        ensures err { OnErr result (self.new ≡ self.old) }
    {
        self.nodes.hold(who, holder)
    }

    /// A place less of a holder holds a row. Where nothing holds it any more it waits for the next sweep.
    pub fn let_go(&mut self, who: RefNum, holder: RefNum)
        ensures { self.new ≡ record {
          nodes = at_node who (held_less holder) self.old.nodes;
          loose = with_loose (option_map_or (λ n. wakes (without_one holder n.holders) n.waits) (node_at self.old.nodes who) false) who self.old.loose;
        } }
    {
        if self.nodes.let_go(who, holder) {
            self.loose.add(who);
        }
    }

    /// No place of a holder holds a row any more. Where nothing holds it then it waits for the next sweep.
    pub fn let_go_all(&mut self, who: RefNum, holder: RefNum)
        ensures { self.new ≡ record {
          nodes = at_node who (held_not holder) self.old.nodes;
          loose = with_loose (option_map_or (λ n. wakes (filter (λ m. not (m == holder)) n.holders) n.waits) (node_at self.old.nodes who) false) who self.old.loose;
        } }
    {
        if self.nodes.let_go_all(who, holder) {
            self.loose.add(who);
        }
    }

    /// A row that waits, which rests from now on.
    pub fn next_loose(&mut self) -> Option<RefNum>
        ensures loose { self.old.loose ≡ self.new.loose ++ option_to_list result }
        ensures nodes { self.new.nodes ≡ option_map_or (λ who. at_node who rested self.old.nodes) result self.old.nodes }
        ensures none { result ≡ None → (who : ℕ) → waits_at self.new.nodes who ≡ false }
    {
        let who = self.loose.pop()?;
        self.nodes.rest(who);
        Some(who)
    }

    /// Takes a row out that doesn't wait.
    pub fn remove(&mut self, who: RefNum) -> Option<Node>
        requires { waits_at self.old.nodes who ≡ false }
        ensures found { result ≡ node_at self.old.nodes who }
        ensures rest { self.new ≡ record self.old { nodes = remove number_of who self.old.nodes } }
        ensures few { length self.new.loose ≤ length self.new.nodes }
    {
        self.nodes.remove(who)
    }
}
