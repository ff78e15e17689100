//! The operations on an instance.
ghost use Rattle.std.specs.Prelude.{◌≡◌, ◌++◌, OnOk, map, option_copied};
ghost use Rattle.std.specs.List.{flat_map};
ghost use Rattle.std.specs.Option.{option_map};
ghost use Rattle.state_model.specs.declared.row.FieldValue.{FieldValue};
ghost use Rattle.wire_model.specs.Edits.{encoded};
ghost use Rattle.wire_model.specs.Patch.{field_edits};
ghost use Rattle.canon_patch.specs.Encoded.{field_encoded, index_of};

use crate::numbers::either_numbers;
use crate::place::{kind_expected, push_place};
use crate::target::Target;
use schema_model::{Memory, TypeNum, Value};
use state_model::{FieldValue, FieldValues, field_expects};
use wire_model::{OpKey, Ops};

// The operations on the fields, rising.
#[tactic(auto, using(crate::proofs::Encoded::fields_encoded))]
pub(crate) fn push_fields(
    to: &Target<'_>,
    ops: &mut Ops,
    class: TypeNum,
    old: &FieldValues,
    new: &FieldValues,
) -> Result<(), Memory>
    ensures { OnOk result (ops.new ≡ ops.old ++ map encoded (field_edits to.now.schema.now to.now.rows.now class old.now new.now)) }
{
    let numbers = either_numbers(to.alloc, old, new)?;
    push_each(to, ops, class, old, new, numbers.as_slice())
}

// The operations on the fields of these numbers.
fn push_each(
    to: &Target<'_>,
    ops: &mut Ops,
    class: TypeNum,
    old: &FieldValues,
    new: &FieldValues,
    numbers: &[u32],
) -> Result<(), Memory>
    ensures { OnOk result (ops.new ≡ ops.old ++ flat_map (field_encoded to.now.schema.now to.now.rows.now class old.now new.now) numbers.now) }
{
    for number in numbers {
        push_field(to, ops, &class, old, new, *number)?;
    }
    Ok(())
}

// The operation on the field of a number, where either list has it.
fn push_field(
    to: &Target<'_>,
    ops: &mut Ops,
    class: &TypeNum,
    old: &FieldValues,
    new: &FieldValues,
    number: u32,
) -> Result<(), Memory>
    ensures { OnOk result (ops.new ≡ ops.old ++ field_encoded to.now.schema.now to.now.rows.now class.now old.now new.now number) }
{
    let (before, after) = (old.get(number), new.get(number));
    let Some(index) = index_of(before, after) else {
        return Ok(());
    };
    let kind = kind_expected(field_expects(to.schema, *class, index));
    let key = OpKey::Field(index);
    push_place(to, ops, key, kind, value_of(before), value_of(after))
}

// The index of a field that is in one list or in both.
fn index_of(old: Option<&FieldValue>, new: Option<&FieldValue>) -> Option<u8>
    ensures { result ≡ index_of (option_copied old.entry) (option_copied new.entry) }
{
    match (old, new) {
        (_, Some(field)) | (Some(field), None) => Some(field.field),
        (None, None) => None,
    }
}

fn value_of(field: Option<&FieldValue>) -> Option<&Value>
    ensures { option_copied result ≡ option_map (λ (f : FieldValue). f.value) (option_copied field.entry) }
{
    field.map(|field| &field.value)
}
