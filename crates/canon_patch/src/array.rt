//! The operations on an array: by position, or by reference where it is filtered.
ghost use Rattle.std.specs.Prelude.{◌≡◌, ◌≤◌, ◌++◌, ◌^◌, IsTrue, OnOk, Some, length, map, option_copied, slice_get};
ghost use Rattle.schema_model.specs.declared.class.Item.TheVariants.{Scalar};
ghost use Rattle.state_model.specs.declared.place.Expected.TheVariants.{Item as AnItem};
ghost use Rattle.state_model.specs.declared.row.Row.TheVariants.{Array};
ghost use Rattle.wire_model.specs.Edits.{encoded};
ghost use Rattle.wire_model.specs.Patch.{array_edits, is_short, slot_edits};
ghost use Rattle.canon_patch.specs.Encoded.{first_encoded};

use crate::by_ref::push_by_ref;
use crate::place::{kind_expected, push_place};
use crate::target::Target;
use schema_model::{Home, Memory, ScalarKind, Value};
use state_model::{Values, is_filtered, item_expects};
use wire_model::{OpKey, Ops};

// The operations on an array.
pub(crate) fn push_values(
    to: &Target<'_>,
    ops: &mut Ops,
    home: &Home,
    old: &Values,
    new: &Values,
) -> Result<(), Memory>
    requires old { IsTrue (is_short to.now.schema.now (Array home.now old.now)) }
    requires new { IsTrue (is_short to.now.schema.now (Array home.now new.now)) }
    ensures { OnOk result (ops.new ≡ ops.old ++ map encoded (array_edits to.now.schema.now to.now.rows.now home.now old.now new.now)) }
{
    if is_filtered(to.schema, *home) {
        push_by_ref(to, ops, *home, old.as_slice(), new.as_slice())
    } else {
        push_slots(to, ops, *home, old.as_slice(), new.as_slice())
    }
}

// The operations on the positions, rising.
#[tactic(auto, using(crate::proofs::Encoded::slots_encoded))]
fn push_slots(
    to: &Target<'_>,
    ops: &mut Ops,
    home: Home,
    old: &[Value],
    new: &[Value],
) -> Result<(), Memory>
    requires old { length old.now ≤ 2 ^ 31 }
    requires new { length new.now ≤ 2 ^ 31 }
    ensures { OnOk result (ops.new ≡ ops.old ++ map encoded (slot_edits to.now.schema.now to.now.rows.now home old.now new.now)) }
{
    let kind = kind_expected(item_expects(to.schema, home));
    let count = old.len().max(new.len()) as u32;
    push_first(to, ops, kind, old, new, count)
}

// The operations on the first so many positions.
fn push_first(
    to: &Target<'_>,
    ops: &mut Ops,
    kind: ScalarKind,
    old: &[Value],
    new: &[Value],
    count: u32,
) -> Result<(), Memory>
    ensures { OnOk result (ops.new ≡ ops.old ++ first_encoded to.now.rows.now (Some (AnItem (Scalar kind))) old.now new.now count) }
{
    for at in 0..count {
        let (before, after) = (value_at(old, at), value_at(new, at));
        push_place(to, ops, OpKey::Item(at), kind, before, after)?;
    }
    Ok(())
}

fn value_at(values: &[Value], at: u32) -> Option<&Value>
    ensures { option_copied result ≡ slice_get values.now at }
{
    values.get(at as usize)
}
