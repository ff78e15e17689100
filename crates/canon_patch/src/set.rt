//! The operations on a set.
ghost use Rattle.std.specs.Prelude.{◌≡◌, ◌++◌, OnOk, Some, map, option_copied};
ghost use Rattle.std.specs.List.{flat_map};
ghost use Rattle.schema_model.specs.declared.class.Item.TheVariants.{Scalar};
ghost use Rattle.state_model.specs.declared.place.Expected.TheVariants.{Item as AnItem};
ghost use Rattle.wire_model.specs.Edits.{encoded};
ghost use Rattle.wire_model.specs.Patch.{set_edits, set_value};
ghost use Rattle.canon_patch.specs.Encoded.{element_encoded};

use crate::numbers::either_numbers;
use crate::place::{kind_expected, push_place};
use crate::target::Target;
use schema_model::{Home, Memory, ScalarKind, Value};
use state_model::{SetItems, item_expects};
use wire_model::{OpKey, Ops};

// The operations on the items, rising by number.
#[tactic(auto, using(crate::proofs::Encoded::elements_encoded))]
pub(crate) fn push_elements(
    to: &Target<'_>,
    ops: &mut Ops,
    home: Home,
    old: &SetItems,
    new: &SetItems,
) -> Result<(), Memory>
    ensures { OnOk result (ops.new ≡ ops.old ++ map encoded (set_edits to.now.schema.now to.now.rows.now home old.now new.now)) }
{
    let kind = kind_expected(item_expects(to.schema, home));
    let numbers = either_numbers(to.alloc, old, new)?;
    push_each(to, ops, kind, old, new, numbers.as_slice())
}

// The operations on the items of these numbers.
fn push_each(
    to: &Target<'_>,
    ops: &mut Ops,
    kind: ScalarKind,
    old: &SetItems,
    new: &SetItems,
    numbers: &[u32],
) -> Result<(), Memory>
    ensures { OnOk result (ops.new ≡ ops.old ++ flat_map (element_encoded to.now.rows.now (Some (AnItem (Scalar kind))) old.now new.now) numbers.now) }
{
    for number in numbers {
        let (before, after) = (value_of(old, *number), value_of(new, *number));
        push_place(to, ops, OpKey::Item(*number), kind, before, after)?;
    }
    Ok(())
}

fn value_of(items: &SetItems, number: u32) -> Option<&Value>
    ensures { option_copied result ≡ set_value items.now number }
{
    items.get(number).map(|item| &item.value)
}
