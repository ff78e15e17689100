//! Rows that nothing holds are freed, and then what only they held.
ghost use Rattle.std.specs.Prelude.{◌≡◌, ◌==◌, ◌&&◌, ◌<◌, ◌≤◌, ℕ, ◌+◌, ◌-◌, [], ◌∷◌, ◌++◌, IfSome, false, filter, length, not};
ghost use Rattle.std.specs.Option.{option_map_or};
ghost use Rattle.lists.specs.Rising.{remove};
ghost use Rattle.state_model.specs.Reached.{freed};
ghost use Rattle.state_model.specs.Rows.{is_live, place_count, text_bytes_of, values_in};
ghost use Rattle.state_model.specs.State.{text_limit};
ghost use Rattle.command_laws.specs.Accounts.{count_of, one_if, row_text};
ghost use Rattle.plain_rows.specs.Links.{held_at};
ghost use Rattle.instance_table.specs.Bodies.{row_of};
ghost use Rattle.instance_table.specs.Changes.{let_go_each};
ghost use Rattle.instance_table.specs.Graph.{waits_at};
ghost use Rattle.instance_table.specs.Nodes.{counts_in, node_at, number_of, rows_in};
ghost use Rattle.instance_table.specs.Table.{IsExact};

use crate::changes::let_go_links;
use crate::graph::Graph;
use crate::roomy_list::RoomyList;
use crate::totals::Totals;
use schema_model::RefNum;

// Whether a row is there that nothing holds, and that isn't the root.
fn is_loose(graph: &Graph, who: RefNum) -> bool
    ensures { result ≡ option_map_or (λ n. not (who == 0) && (length n.holders == 0)) (node_at graph.now.nodes who) false }
{
    match graph.get(who) {
        Some(node) => who.0 != 0 && node.holders.len() == 0,
        None => false,
    }
}

// Takes a row out that doesn't wait, and lets go of what it held.
fn free(graph: &mut Graph, totals: &mut Totals, gone: &mut RoomyList, who: RefNum)
    requires rests { waits_at (let_go_each (held_at (rows_in graph.old.nodes) who) who graph.old.nodes) who ≡ false }
    requires places { IfSome (node_at graph.old.nodes who) (λ n. length (values_in (row_of n.body)) ≤ totals.old.places) }
    requires text { IfSome (node_at graph.old.nodes who) (λ n. row_text (row_of n.body) ≤ totals.old.text) }
    requires few { totals.old.text ≤ text_limit }
    requires room { length gone.old.numbers < gone.old.room }
    ensures nodes { IfSome (node_at graph.old.nodes who) (λ n.
        graph.new.nodes ≡ remove number_of who (let_go_each (held_at (rows_in graph.old.nodes) who) who graph.old.nodes)) }
    ensures places { IfSome (node_at graph.old.nodes who) (λ n. totals.new.places ≡ totals.old.places - length (values_in (row_of n.body))) }
    ensures text { IfSome (node_at graph.old.nodes who) (λ n. totals.new.text ≡ totals.old.text - row_text (row_of n.body)) }
    ensures gone { IfSome (node_at graph.old.nodes who) (λ n. gone.new.numbers ≡ gone.old.numbers ++ who ∷ []) }
    ensures kept { gone.old.room ≤ gone.new.room }
    ensures loose { length graph.new.loose ≤ length graph.new.nodes }
{
    let_go_links(graph, who);
    if let Some(node) = graph.remove(who) {
        *totals = totals.without(&node.body);
        gone.add(who);
    }
}

/// Frees the rows that nothing holds, but for the root, and then those that only they held, and tells their numbers as
/// they went. Looks at no row but those that wait.
pub fn sweep(graph: &mut Graph, totals: &mut Totals, gone: &mut RoomyList)
    requires exact { IsExact graph.old.nodes }
    requires places { totals.old.places ≡ place_count (rows_in graph.old.nodes) }
    requires text { totals.old.text ≡ text_bytes_of (rows_in graph.old.nodes) }
    requires few { totals.old.text ≤ text_limit }
    requires none { gone.old.numbers ≡ [] }
    requires room { length graph.old.nodes ≤ gone.old.room }
    ensures rows { rows_in graph.new.nodes ≡ freed (rows_in graph.old.nodes) }
    ensures counts { counts_in graph.new.nodes ≡ filter (λ c. is_live (freed (rows_in graph.old.nodes)) c.who) (counts_in graph.old.nodes) }
    ensures exact { IsExact graph.new.nodes }
    ensures places { totals.new.places ≡ place_count (rows_in graph.new.nodes) }
    ensures text { totals.new.text ≡ text_bytes_of (rows_in graph.new.nodes) }
    ensures gone { (k : ℕ) → count_of k gone.new.numbers + one_if (is_live (rows_in graph.new.nodes) k) ≡ one_if (is_live (rows_in graph.old.nodes) k) }
    ensures less { totals.new.places ≤ totals.old.places }
    ensures shorter { totals.new.text ≤ totals.old.text }
    ensures room { length graph.new.nodes ≤ gone.new.room }
    ensures fewer { length graph.new.nodes ≤ length graph.old.nodes }
{
    graph.nodes().know_rising();
    while let Some(who) = graph.next_loose() {
        if is_loose(graph, who) {
            free(graph, totals, gone, who);
        }
    }
}
