//! The links that a row holds.
ghost use Rattle.std.specs.Prelude.{◌≡◌, ◌++◌, OnOk, option_copied};
ghost use Rattle.std.specs.Option.{option_to_list};
ghost use Rattle.state_model.specs.Rows.{held_in, values_in};
ghost use Rattle.instance_table.specs.Bodies.{row_of};
ghost use Rattle.instance_table.specs.Changes.{link_in};
ghost use Rattle.command_laws.specs.Accounts.{held_in_value};

use crate::body::Body;
use schema_model::{Memory, RefNum, Value};

/// The number that a value links to.
pub fn link_of(value: Option<&Value>) -> Option<RefNum>
    ensures link { result ≡ link_in (option_copied value.entry) }
    ensures held { option_to_list result ≡ held_in_value (option_copied value.entry) }
{
    match value? {
        Value::Link(who) => Some(*who),
        _ => None,
    }
}

/// Adds the numbers that a row holds, place by place.
pub fn add_links(body: &Body, links: &mut Vec<RefNum>) -> Result<(), Memory>
    ensures { OnOk result (links.new.items ≡ links.old.items ++ held_in (row_of body.now)) }
{
    let count = body.len();
    let mut behind = None;
    for n in 0..count {
        let (value, next) = body.value_nth(n, behind);
        if let Some(who) = link_of(value) {
            links.push(who)?;
        }
        behind = next;
    }
    Ok(())
}
