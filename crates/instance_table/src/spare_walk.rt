//! Whether a row reaches another, by a walk that takes no memory.
ghost use Rattle.std.specs.Prelude.{◌≡◌, ◌≤◌, length, true};
ghost use Rattle.schema_model.specs.Classes.{Schema};
ghost use Rattle.state_model.specs.Reached.{is_among, reached};
ghost use Rattle.state_model.specs.Rows.{is_live};
ghost use Rattle.state_model.specs.Sound.{are_sound};
ghost use Rattle.plain_rows.specs.Links.{held_at};
ghost use Rattle.instance_table.specs.Nodes.{rows_in};
ghost use Rattle.instance_table.specs.Table.{IsExact};
ghost use Rattle.instance_table.specs.Ways.{AreFew, rows_along, with_each};
ghost use Rattle.instance_table.specs.declared.way.Way.TheVariants.{Holders};

use crate::nodes::Nodes;
use crate::roomy_list::RoomyList;
use schema_model::RefNum;

// Adds those holders of a row that the list doesn't have.
fn add_holders(nodes: &Nodes, who: RefNum, seen: &mut RoomyList)
    requires exact { IsExact nodes.now }
    requires few { AreFew nodes.now seen.old.numbers }
    requires room { length nodes.now ≤ seen.old.room }
    ensures numbers { seen.new.numbers ≡ with_each seen.old.numbers (held_at (rows_along Holders nodes.now) who) }
    ensures few { AreFew nodes.now seen.new.numbers }
    ensures kept { seen.old.room ≤ seen.new.room }
{
    let Some(node) = nodes.get(who) else {
        return;
    };
    for holder in node.holders.as_slice() {
        if !seen.has(*holder) {
            seen.add(*holder);
        }
    }
}

/// Whether one row reaches another, by a walk back along holders from the other. The list, which has room for all rows,
/// has each row that it comes to once: first those whose holders it has, then those that wait. Whether it has a row is
/// looked for along the list, so that this takes long among many rows.
pub fn reaches_back(seen: &mut RoomyList, nodes: &Nodes, from: RefNum, to: RefNum) -> bool
    requires sound { (schema : Schema) × (are_sound schema (rows_in nodes.now) ≡ true) }
    requires exact { IsExact nodes.now }
    requires live { is_live (rows_in nodes.now) to ≡ true }
    requires room { length nodes.now ≤ seen.old.room }
    ensures value { result ≡ is_among to (reached (rows_in nodes.now) from) }
    ensures kept { seen.old.room ≤ seen.new.room }
{
    nodes.know_rising();
    seen.clear();
    seen.add(to);
    for at in 0..nodes.len() {
        if let Some(who) = seen.get(at) {
            add_holders(nodes, who, seen);
        }
    }
    seen.has(from)
}
