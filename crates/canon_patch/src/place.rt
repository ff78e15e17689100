//! The operation on one place, and the value that it carries.
ghost use Rattle.std.specs.Prelude.{◌≡◌, ◌∷◌, [], ◌++◌, IfOk, OnOk, Some, map, option_copied};
ghost use Rattle.schema_model.specs.declared.class.Item.TheVariants.{Scalar};
ghost use Rattle.schema_model.specs.declared.value.Value.TheVariants.{Link};
ghost use Rattle.state_model.specs.declared.place.Expected.TheVariants.{Item as AnItem};
ghost use Rattle.state_model.specs.Places.{item_expects, row_class};
ghost use Rattle.state_model.specs.Values.{is_link};
ghost use Rattle.wire_model.specs.Edits.{Add, DeleteAdd, Replace, encoded, encoded_link, encoded_value};
ghost use Rattle.wire_model.specs.Patch.{carried, changed_place, kind_in, kind_expected, place_edit};

use crate::target::Target;
use schema_model::{Item, Memory, RefNum, ScalarKind, TypeNum, Value};
use state_model::{Expected, Row, Rows};
use wire_model::{Op, OpKey, OpValue, Ops};

// The operation on a place whose key is the same under every operation: nothing where it is as it was.
pub(crate) fn push_place(
    to: &Target<'_>,
    ops: &mut Ops,
    key: OpKey,
    kind: ScalarKind,
    old: Option<&Value>,
    new: Option<&Value>,
) -> Result<(), Memory>
    ensures { OnOk result (ops.new ≡ ops.old ++ map encoded (place_edit key key to.now.rows.now (Some (AnItem (Scalar kind)))
        (option_copied old.entry) (option_copied new.entry))) }
{
    match (old, new) {
        (None, None) => Ok(()),
        (Some(_), None) => ops.push(Op::Delete(key)),
        (None, Some(value)) => push_added(to, ops, key, kind, value),
        (Some(before), Some(value)) => {
            if before.same(value) {
                Ok(())
            } else if is_link(value) {
                push_exchanged(to, ops, key, kind, value)
            } else {
                push_replaced(to, ops, key, kind, value)
            }
        }
    }
}

// ADD of a value.
pub(crate) fn push_added(
    to: &Target<'_>,
    ops: &mut Ops,
    key: OpKey,
    kind: ScalarKind,
    value: &Value,
) -> Result<(), Memory>
    ensures { OnOk result (ops.new ≡ ops.old ++ encoded (Add key (carried to.now.rows.now (Some (AnItem (Scalar kind))) value.now)) ∷ []) }
{
    let carried = value_encoded(to, kind, true, value)?;
    ops.push(Op::Add(key, carried))
}

// DELETE_AND_ADD of a value.
pub(crate) fn push_exchanged(
    to: &Target<'_>,
    ops: &mut Ops,
    key: OpKey,
    kind: ScalarKind,
    value: &Value,
) -> Result<(), Memory>
    ensures { OnOk result (ops.new ≡ ops.old ++ encoded (DeleteAdd key (carried to.now.rows.now (Some (AnItem (Scalar kind))) value.now)) ∷ []) }
{
    let carried = value_encoded(to, kind, true, value)?;
    ops.push(Op::DeleteAdd(key, carried))
}

// REPLACE by a value.
pub(crate) fn push_replaced(
    to: &Target<'_>,
    ops: &mut Ops,
    key: OpKey,
    kind: ScalarKind,
    value: &Value,
) -> Result<(), Memory>
    ensures { OnOk result (ops.new ≡ ops.old ++ encoded (Replace key (carried to.now.rows.now (Some (AnItem (Scalar kind))) value.now)) ∷ []) }
{
    let carried = value_encoded(to, kind, false, value)?;
    ops.push(Op::Replace(key, carried))
}

// A value as an operation with or without the ADD bit carries it.
pub(crate) fn value_encoded(
    to: &Target<'_>,
    kind: ScalarKind,
    adds: bool,
    value: &Value,
) -> Result<OpValue, Memory>
    ensures { IfOk result (λ v. v ≡ encoded_value adds (carried to.now.rows.now (Some (AnItem (Scalar kind))) value.now)) }
{
    match value {
        Value::Link(who) => Ok(link_encoded(to.rows, adds, *who)),
        Value::Whole(_) | Value::Str(_) | Value::Truth(_) => {
            Ok(OpValue::Scalar(kind, value.copy(to.alloc)?))
        }
    }
}

// A link with what the linked row is.
fn link_encoded(rows: &Rows, adds: bool, who: RefNum) -> OpValue
    ensures { result ≡ encoded_link adds who (row_class (kind_in rows.now who)) }
{
    match rows.get(who) {
        None => instance_encoded(adds, who, TypeNum(0)),
        Some(Row::Struct(class, _)) => instance_encoded(adds, who, *class),
        Some(Row::Map(_, _) | Row::Array(_, _) | Row::Set(_, _)) => OpValue::Coll(who),
    }
}

// A link to an instance, with its class where the operation has the ADD bit.
fn instance_encoded(adds: bool, who: RefNum, class: TypeNum) -> OpValue
    ensures { result ≡ encoded_link adds who (Some class) }
{
    if adds {
        OpValue::Struct(who, Some(class))
    } else {
        OpValue::Struct(who, None)
    }
}

pub(crate) fn is_link(value: &Value) -> bool
    ensures { result ≡ is_link value.now }
{
    match value {
        Value::Link(_) => true,
        Value::Whole(_) | Value::Str(_) | Value::Truth(_) => false,
    }
}

// The scalar kind of what a place is declared to hold; a number's where it holds no scalar.
pub(crate) fn kind_expected(expected: Option<Expected>) -> ScalarKind
    ensures { result ≡ kind_expected expected }
{
    match expected {
        Some(Expected::Item(item)) => kind_of_item(item),
        Some(Expected::Collection(_)) | None => ScalarKind::Number,
    }
}

// The scalar kind of an item; a number's where it is an instance.
fn kind_of_item(item: Item) -> ScalarKind
    ensures { result ≡ kind_expected (Some (AnItem item)) }
{
    match item {
        Item::Scalar(kind) => kind,
        Item::Class(_) => ScalarKind::Number,
    }
}
