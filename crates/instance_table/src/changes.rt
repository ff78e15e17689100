//! Commands that change a row, and rows that let go of what they hold.
ghost use Rattle.std.specs.Prelude.{◌≡◌, ◌+◌, [], IfSome, None, OnErr, OnOk, Some, is_none, is_ok, length, option_copied, slice_get, true};
ghost use Rattle.std.specs.Option.{option_map_or, option_to_list};
ghost use Rattle.state_model.specs.Commands.{value_put};
ghost use Rattle.state_model.specs.Rows.{values_in};
ghost use Rattle.command_laws.specs.Accounts.{held_in_value, is_clear, replaced};
ghost use Rattle.plain_rows.specs.Links.{held_at};
ghost use Rattle.instance_table.specs.Bodies.{CanEdit, row_of, takes_out};
ghost use Rattle.instance_table.specs.Changes.{IsBehindAt, IsUndone, changed, hold_link, let_go_each, let_go_link, link_in, place_changed, values_at};
ghost use Rattle.instance_table.specs.Found.{item_number};
ghost use Rattle.instance_table.specs.Nodes.{node_at, rows_in};

use crate::graph::Graph;
use crate::links::link_of;
use crate::parts::value_put;
use crate::plan::Located;
use schema_model::{Memory, RefNum};
use state_model::Command;
use std::alloc::Global;

// How many places the row of a number has.
fn places_at(graph: &Graph, who: RefNum) -> usize
    ensures { result ≡ length (values_at graph.now.nodes who) }
{
    match graph.get(who) {
        Some(node) => node.body.len(),
        None => 0,
    }
}

// The link in the n-th place of the row of a number, where `behind` is what this gave for the place before it; and what to
// give it for the next.
fn link_nth(
    graph: &Graph,
    who: RefNum,
    n: usize,
    behind: Option<u32>,
) -> (Option<RefNum>, Option<u32>)
    requires { IsBehindAt graph.now.nodes who n behind }
    ensures link { result.0 ≡ link_in (slice_get (values_at graph.now.nodes who) n) }
    ensures next { IsBehindAt graph.now.nodes who (n + 1) result.1 }
{
    match graph.get(who) {
        Some(node) => {
            let (value, next) = node.body.value_nth(n, behind);
            (link_of(value), next)
        }
        None => (None, None),
    }
}

/// The row of a number holds nothing any more. What nothing holds then waits for the next sweep.
pub fn let_go_links(graph: &mut Graph, holder: RefNum)
    ensures { graph.new.nodes ≡ let_go_each (held_at (rows_in graph.old.nodes) holder) holder graph.old.nodes }
{
    let count = places_at(graph, holder);
    let mut behind = None;
    for n in 0..count {
        let (link, next) = link_nth(graph, holder, n, behind);
        if let Some(link) = link {
            graph.let_go_all(link, holder);
        }
        behind = next;
    }
}

// A place more of a holder holds this, where it is one.
fn hold_link(graph: &mut Graph, link: Option<RefNum>, holder: RefNum) -> Result<(), Memory>
    ensures ok { OnOk result (graph.new.nodes ≡ hold_link link holder graph.old.nodes) }
    ensures err { OnErr result (graph.new.nodes ≡ graph.old.nodes) }
    ensures sure { link ≡ None → is_ok result ≡ true }
{
    match link {
        Some(who) => graph.hold(who, holder),
        None => Ok(()),
    }
}

// A place less of a holder holds this, where it is one.
fn let_go_link(graph: &mut Graph, link: Option<RefNum>, holder: RefNum)
    ensures { graph.new.nodes ≡ let_go_link link holder graph.old.nodes }
{
    if let Some(who) = link {
        graph.let_go(who, holder);
    }
}

// A command changes one place: the new link is held, the place changed, and the old link let go.
fn change_place(
    graph: &mut Graph,
    alloc: Global,
    holder: RefNum,
    command: &Command,
    located: &Located,
    before: Option<RefNum>,
) -> Result<(), Memory>
    requires can { IfSome (node_at graph.old.nodes holder) (λ n. CanEdit command.now n.body) }
    requires number { IfSome (node_at graph.old.nodes holder) (λ n. located.now.number ≡ item_number command.now (row_of n.body)) }
    requires before { IfSome (node_at graph.old.nodes holder) (λ n. before ≡ link_in (replaced command.now (row_of n.body))) }
    ensures ok { IfSome (node_at graph.old.nodes holder) (λ n. OnOk result (graph.new.nodes ≡ place_changed command.now holder n.body graph.old.nodes)) }
    ensures err { OnErr result (IsUndone command.now holder graph.old.nodes graph.new.nodes) }
    ensures sure { takes_out command.now ≡ true → is_ok result ≡ true }
{
    hold_link(graph, link_of(value_put(command)), holder)?;
    match graph.edit(alloc, holder, command, located) {
        Ok(()) => {
            let_go_link(graph, before, holder);
            Ok(())
        }
        Err(Memory) => {
            let_go_link(graph, link_of(value_put(command)), holder);
            Err(Memory)
        }
    }
}

/// A command changes a row. What only takes places out takes no memory; without memory the row and who holds what are
/// as before.
pub fn change(
    graph: &mut Graph,
    alloc: Global,
    holder: RefNum,
    command: &Command,
    located: &Located,
    before: Option<RefNum>,
) -> Result<(), Memory>
    requires can { IfSome (node_at graph.old.nodes holder) (λ n. CanEdit command.now n.body) }
    requires number { IfSome (node_at graph.old.nodes holder) (λ n. located.now.number ≡ item_number command.now (row_of n.body)) }
    requires before { IfSome (node_at graph.old.nodes holder) (λ n. before ≡ link_in (replaced command.now (row_of n.body))) }
    ensures ok { IfSome (node_at graph.old.nodes holder) (λ n. OnOk result (graph.new.nodes ≡ changed command.now holder n.body graph.old.nodes)) }
    ensures err { OnErr result (IsUndone command.now holder graph.old.nodes graph.new.nodes) }
    ensures sure { takes_out command.now ≡ true → is_ok result ≡ true }
{
    match command {
        Command::Clear(_) => {
            let_go_links(graph, holder);
            graph.edit(alloc, holder, command, located)
        }
        _ => change_place(graph, alloc, holder, command, located, before),
    }
}
