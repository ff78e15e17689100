//! The operations on a map.
ghost use Rattle.std.specs.Prelude.{◌≡◌, ◌++◌, Some, OnOk, map, option_copied};
ghost use Rattle.std.specs.List.{flat_map};
ghost use Rattle.schema_model.specs.declared.class.Item.TheVariants.{Scalar};
ghost use Rattle.state_model.specs.declared.place.Expected.TheVariants.{Item as AnItem};
ghost use Rattle.wire_model.specs.declared.op.OpKey.TheVariants.{Item, Named};
ghost use Rattle.wire_model.specs.Edits.{encoded};
ghost use Rattle.wire_model.specs.Patch.{item_key, item_value, map_edits, place_edit};
ghost use Rattle.canon_patch.specs.Encoded.{item_encoded};

use crate::numbers::either_numbers;
use crate::place::{is_link, kind_expected, push_added, push_exchanged, push_replaced};
use crate::target::Target;
use schema_model::{Home, Memory, ScalarKind};
use state_model::{MapItem, MapItems, item_expects};
use wire_model::{Op, OpKey, Ops};

// The operations on the items, rising by number.
#[tactic(auto, using(crate::proofs::Encoded::items_encoded))]
pub(crate) fn push_items(
    to: &Target<'_>,
    ops: &mut Ops,
    home: Home,
    old: &MapItems,
    new: &MapItems,
) -> Result<(), Memory>
    ensures { OnOk result (ops.new ≡ ops.old ++ map encoded (map_edits to.now.schema.now to.now.rows.now home old.now new.now)) }
{
    let kind = kind_expected(item_expects(to.schema, home));
    let numbers = either_numbers(to.alloc, old, new)?;
    push_each(to, ops, kind, old, new, numbers.as_slice())
}

// The operations on the items of these numbers.
fn push_each(
    to: &Target<'_>,
    ops: &mut Ops,
    kind: ScalarKind,
    old: &MapItems,
    new: &MapItems,
    numbers: &[u32],
) -> Result<(), Memory>
    ensures { OnOk result (ops.new ≡ ops.old ++ flat_map (item_encoded to.now.rows.now (Some (AnItem (Scalar kind))) old.now new.now) numbers.now) }
{
    for number in numbers {
        let (before, after) = (old.get(*number), new.get(*number));
        push_item(to, ops, kind, *number, before, after)?;
    }
    Ok(())
}

// The operation on the item of a number. Its key is told where it is added.
fn push_item(
    to: &Target<'_>,
    ops: &mut Ops,
    kind: ScalarKind,
    number: u32,
    old: Option<&MapItem>,
    new: Option<&MapItem>,
) -> Result<(), Memory>
    ensures { OnOk result (ops.new ≡ ops.old ++ map encoded (place_edit (Item number) (Named number (item_key (option_copied new.entry)))
        to.now.rows.now (Some (AnItem (Scalar kind))) (item_value (option_copied old.entry)) (item_value (option_copied new.entry)))) }
{
    match (old, new) {
        (None, None) => Ok(()),
        (Some(_), None) => ops.push(Op::Delete(OpKey::Item(number))),
        (None, Some(item)) => {
            let key = OpKey::Named(number, item.key.copy(to.alloc)?);
            push_added(to, ops, key, kind, &item.value)
        }
        (Some(before), Some(item)) => {
            if before.value.same(&item.value) {
                Ok(())
            } else if is_link(&item.value) {
                let key = OpKey::Named(number, item.key.copy(to.alloc)?);
                push_exchanged(to, ops, key, kind, &item.value)
            } else {
                push_replaced(to, ops, OpKey::Item(number), kind, &item.value)
            }
        }
    }
}
