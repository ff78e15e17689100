//! The operations on a filtered array, which go by reference.
ghost use Rattle.std.specs.Prelude.{◌≡◌, ◌++◌, ◌||◌, ◌∷◌, [], ℕ, OnOk, IfOk, map, Some, option_copied};
ghost use Rattle.std.specs.List.{flat_map};
ghost use Rattle.schema_model.specs.declared.class.Item.TheVariants.{Scalar};
ghost use Rattle.schema_model.specs.declared.value.Value.TheVariants.{Link};
ghost use Rattle.state_model.specs.declared.place.Expected.TheVariants.{Item as AnItem};
ghost use Rattle.state_model.specs.Reached.{is_among};
ghost use Rattle.state_model.specs.Values.{same_value};
ghost use Rattle.wire_model.specs.Edits.{encoded};
ghost use Rattle.wire_model.specs.Patch.{drop_edit, gone_of, kept_of, ref_edits, same_values, stands_in};
ghost use Rattle.canon_patch.specs.ByRef.{AreLinksOf, after_all, after_first, come_encoded, gone_encoded, is_ended, push_encoded};

use crate::marks::add_number;
use crate::place::{kind_expected, value_encoded};
use crate::target::Target;
use plain_rows::NumberSet;
use schema_model::{Home, Memory, ScalarKind, Value};
use state_model::item_expects;
use std::alloc::Global;
use wire_model::{Op, Ops};

// The operations on a filtered array: those that went are deleted and those that came are added at the end, where
// that gives the new order; else all are added anew. Near-linear where the values are links, as they are in rows
// of the schema.
pub(crate) fn push_by_ref(
    to: &Target<'_>,
    ops: &mut Ops,
    home: Home,
    old: &[Value],
    new: &[Value],
) -> Result<(), Memory>
    ensures { OnOk result (ops.new ≡ ops.old ++ map encoded (ref_edits to.now.schema.now to.now.rows.now home old.now new.now)) }
{
    let kind = kind_expected(item_expects(to.schema, home));
    let old_links = links_of(to.alloc, old)?;
    let new_links = links_of(to.alloc, new)?;
    if is_appended(old, &old_links, new, &new_links) {
        push_gone(ops, old, new, &new_links)?;
        push_come(to, ops, kind, old, &old_links, new)
    } else {
        ops.push(Op::Clear)?;
        push_all(to, ops, kind, new)
    }
}

// The numbers to which values link.
fn links_of(alloc: Global, values: &[Value]) -> Result<NumberSet, Memory>
    ensures { IfOk result (λ links. AreLinksOf values.now links) }
{
    let mut links = NumberSet::new(alloc);
    for value in values {
        add_link(&mut links, value)?;
    }
    Ok(links)
}

fn add_link(links: &mut NumberSet, value: &Value) -> Result<(), Memory>
    ensures { OnOk result ((k : ℕ) → is_among k links.new ≡ (same_value (Link k) value.now || is_among k links.old)) }
{
    match value {
        Value::Link(who) => add_number(links, *who),
        Value::Whole(_) | Value::Str(_) | Value::Truth(_) => Ok(()),
    }
}

// Whether a value stands among these, whose links are given: only another value than a link is looked for one by one.
fn stands_in(values: &[Value], links: &NumberSet, value: &Value) -> bool
    requires { AreLinksOf values.now links.now }
    ensures { result ≡ stands_in values.now value.now }
{
    match value {
        Value::Link(who) => links.has(*who),
        Value::Whole(_) | Value::Str(_) | Value::Truth(_) => is_found(values, value),
    }
}

fn is_found(values: &[Value], value: &Value) -> bool
    ensures { result ≡ stands_in values.now value.now }
{
    for other in values {
        if value.same(other) {
            return true;
        }
    }
    false
}

// Whether the new values are the old ones that are still there, in their order, and then those that came.
fn is_appended(old: &[Value], old_links: &NumberSet, new: &[Value], new_links: &NumberSet) -> bool
    requires old { AreLinksOf old.now old_links.now }
    requires new { AreLinksOf new.now new_links.now }
    ensures { result ≡ same_values new.now (kept_of new.now old.now ++ gone_of old.now new.now) }
{
    match after_kept(new, old, new, new_links) {
        None => false,
        Some(rest) => is_ended(after_gone(rest, new, old, old_links)),
    }
}

fn is_ended(rest: Option<&[Value]>) -> bool
    ensures { result ≡ is_ended (option_copied rest.entry) }
{
    match rest {
        None => false,
        Some(values) => values.is_empty(),
    }
}

// What is left of values that begin with those of a list that stand among others.
fn after_kept<'a>(
    values: &'a [Value],
    chosen: &[Value],
    others: &[Value],
    links: &NumberSet,
) -> Option<&'a [Value]>
    requires { AreLinksOf others.now links.now }
    ensures { option_copied result ≡ after_all values.now (kept_of others.now chosen.now) }
{
    let mut rest = values;
    for value in chosen {
        if stands_in(others, links, value) {
            rest = after_first(rest, value)?;
        }
    }
    Some(rest)
}

// What is left of values that begin with those of a list that don't stand among others.
fn after_gone<'a>(
    values: &'a [Value],
    chosen: &[Value],
    others: &[Value],
    links: &NumberSet,
) -> Option<&'a [Value]>
    requires { AreLinksOf others.now links.now }
    ensures { option_copied result ≡ after_all values.now (gone_of others.now chosen.now) }
{
    let mut rest = values;
    for value in chosen {
        if !stands_in(others, links, value) {
            rest = after_first(rest, value)?;
        }
    }
    Some(rest)
}

// What is left of values that begin with this one.
fn after_first<'a>(values: &'a [Value], value: &Value) -> Option<&'a [Value]>
    ensures { option_copied result ≡ after_first values.now value.now }
{
    match values.split_first() {
        Some((first, rest)) if first.same(value) => Some(rest),
        _ => None,
    }
}

// DELETE_BY_REFID of the links that went.
fn push_gone(
    ops: &mut Ops,
    old: &[Value],
    new: &[Value],
    new_links: &NumberSet,
) -> Result<(), Memory>
    requires { AreLinksOf new.now new_links.now }
    ensures { OnOk result (ops.new ≡ ops.old ++ flat_map (gone_encoded new.now) old.now) }
{
    for value in old {
        if !stands_in(new, new_links, value) {
            push_drop(ops, value)?;
        }
    }
    Ok(())
}

fn push_drop(ops: &mut Ops, value: &Value) -> Result<(), Memory>
    ensures { OnOk result (ops.new ≡ ops.old ++ map encoded (drop_edit value.now)) }
{
    match value {
        Value::Link(who) => ops.push(Op::DeleteByRef(*who)),
        Value::Whole(_) | Value::Str(_) | Value::Truth(_) => Ok(()),
    }
}

// ADD_BY_REFID of the values that came.
fn push_come(
    to: &Target<'_>,
    ops: &mut Ops,
    kind: ScalarKind,
    old: &[Value],
    old_links: &NumberSet,
    new: &[Value],
) -> Result<(), Memory>
    requires { AreLinksOf old.now old_links.now }
    ensures { OnOk result (ops.new ≡ ops.old ++ flat_map (come_encoded to.now.rows.now (Some (AnItem (Scalar kind))) old.now) new.now) }
{
    for value in new {
        if !stands_in(old, old_links, value) {
            push_value(to, ops, kind, value)?;
        }
    }
    Ok(())
}

// ADD_BY_REFID of all values.
fn push_all(
    to: &Target<'_>,
    ops: &mut Ops,
    kind: ScalarKind,
    values: &[Value],
) -> Result<(), Memory>
    ensures { OnOk result (ops.new ≡ ops.old ++ map (push_encoded to.now.rows.now (Some (AnItem (Scalar kind)))) values.now) }
{
    for value in values {
        push_value(to, ops, kind, value)?;
    }
    Ok(())
}

fn push_value(to: &Target<'_>, ops: &mut Ops, kind: ScalarKind, value: &Value) -> Result<(), Memory>
    ensures { OnOk result (ops.new ≡ ops.old ++ push_encoded to.now.rows.now (Some (AnItem (Scalar kind))) value.now ∷ []) }
{
    let carried = value_encoded(to, kind, true, value)?;
    ops.push(Op::AddByRef(carried))
}
