ghost use Rattle.std.specs.Prelude.{◌≡◌, ◌==◌, OnOk, IfOk, option_copied};
ghost use Rattle.std.specs.List.{list_any};
ghost use Rattle.state_model.specs.declared.row.SetItem.{SetItem};
ghost use Rattle.wire_model.specs.Effect.{opened, closed, effect, finds, put_field, put_element};
ghost use Rattle.wire_ops.specs.PlainEdits.{plain_edit};
ghost use Rattle.wire_ops.specs.Bodies.{body_of, edited_fields, edited_items, edited_slots, edited_elements, put_position, replaced_number};

use crate::carried::placed_value;
use crate::holder::{Elements, Holder};
use crate::items::Items;
use crate::slots::Slots;
use lists::Memory;
use schema_model::Value;
use state_model::{FieldValue, FieldValues, Row, SetItem};
use std::alloc::Global;
use trees::Tree;
use wire_model::{Op, OpKey};

impl Holder {
    /// A row as a holder. Takes the number of its places times its logarithm.
    pub fn open(alloc: Global, row: Row) -> Result<Holder, Memory>
        ensures { IfOk result (λ h. body_of h ≡ opened row) }
    {
        match row {
            Row::Struct(class, fields) => Ok(Holder::Fields(class, fields)),
            Row::Map(home, items) => Ok(Holder::Items(home, Items::open(alloc, items)?)),
            Row::Array(home, values) => Ok(Holder::Slots(home, Slots::open(alloc, values)?)),
            Row::Set(home, items) => Ok(Holder::Elements(home, Tree::from_rising(alloc, items)?)),
        }
    }

    /// The holder as a row: its holes are closed. Takes time in proportion to its places.
    pub fn close(self, alloc: Global) -> Result<Row, Memory>
        ensures { IfOk result (λ r. r ≡ closed (body_of self)) }
    {
        match self {
            Holder::Fields(class, fields) => Ok(Row::Struct(class, fields)),
            Holder::Items(home, items) => Ok(Row::Map(home, items.close(alloc)?)),
            Holder::Slots(home, slots) => Ok(Row::Array(home, slots.close(alloc)?)),
            Holder::Elements(home, items) => Ok(Row::Set(home, items.into_rising(alloc)?)),
        }
    }

    /// The holder as it is when it was closed and is opened again: without holes. In an array a hole
    /// that was made since the last rest takes logarithmic time, but that the numbers of closed
    /// places behind it move up; once in 512 holes, and one more for eight slots, it takes as long
    /// as to open the array. Other rows take constant time.
    pub fn rest(self, alloc: Global) -> Result<Holder, Memory>
        ensures { IfOk result (λ h. body_of h ≡ opened (closed (body_of self))) }
    {
        match self {
            Holder::Fields(class, fields) => Ok(Holder::Fields(class, fields)),
            Holder::Items(home, items) => Ok(Holder::Items(home, items)),
            Holder::Slots(home, slots) => Ok(Holder::Slots(home, slots.rest(alloc)?)),
            Holder::Elements(home, items) => Ok(Holder::Elements(home, items)),
        }
    }

    /// The holder after an operation. Takes logarithmic time, and the length of the text that it
    /// carries.
    pub fn apply(self, alloc: Global, op: &Op) -> Result<Holder, Memory>
        ensures { IfOk result (λ h. body_of h ≡ effect (plain_edit op.now) (body_of self)) }
    {
        let mut holder = self;
        holder.edit(alloc, op)?;
        Ok(holder)
    }

    // Does an operation. After an `Err` the holder is any.
    #[tactic(auto, using(crate::proofs::EffectLaws::effect_fields, crate::proofs::EffectLaws::effect_items, crate::proofs::EffectLaws::effect_slots, crate::proofs::EffectLaws::effect_elements))]
    fn edit(&mut self, alloc: Global, op: &Op) -> Result<(), Memory>
        ensures { OnOk result (body_of self.new ≡ effect (plain_edit op.now) (body_of self.old)) }
    {
        match self {
            Holder::Fields(_, fields) => apply_to_fields(alloc, fields, op),
            Holder::Items(_, items) => apply_to_items(alloc, items, op),
            Holder::Slots(_, slots) => apply_to_slots(alloc, slots, op),
            Holder::Elements(_, items) => apply_to_elements(alloc, items, op),
        }
    }

    /// The item or the position of an operation is there, where the operation asks for it.
    #[tactic(auto, using(crate::proofs::EffectLaws::finds_fields, crate::proofs::EffectLaws::finds_items, crate::proofs::EffectLaws::finds_slots, crate::proofs::EffectLaws::finds_elements))]
    pub fn finds(&self, op: &Op) -> bool
        ensures { result ≡ finds (plain_edit op.now) (body_of self.now) }
    {
        match self {
            Holder::Fields(_, _) => true,
            Holder::Items(_, items) => match replaced_number(op) {
                Some(number) => items.has(number),
                None => true,
            },
            Holder::Slots(_, slots) => match put_position(op) {
                Some(at) => at as usize <= slots.len(),
                None => true,
            },
            Holder::Elements(_, items) => match replaced_number(op) {
                Some(number) => has_element(items, number),
                None => true,
            },
        }
    }
}

// The number of the item whose value an operation replaces.
fn replaced_number(op: &Op) -> Option<u32>
    ensures { result ≡ replaced_number (plain_edit op.now) }
{
    match op {
        Op::Replace(OpKey::Item(number), _) => Some(*number),
        _ => None,
    }
}

// The position at which an operation puts a value.
fn put_position(op: &Op) -> Option<u32>
    ensures { result ≡ put_position (plain_edit op.now) }
{
    match op {
        Op::Add(OpKey::Item(at), _)
        | Op::Replace(OpKey::Item(at), _)
        | Op::DeleteAdd(OpKey::Item(at), _) => Some(*at),
        _ => None,
    }
}

fn apply_to_fields(alloc: Global, fields: &mut FieldValues, op: &Op) -> Result<(), Memory>
    ensures { OnOk result (fields.new ≡ edited_fields (plain_edit op.now) fields.old) }
{
    match op {
        Op::Add(OpKey::Field(field), value)
        | Op::Replace(OpKey::Field(field), value)
        | Op::DeleteAdd(OpKey::Field(field), value) => {
            put_field(fields, *field, placed_value(alloc, value)?)
        }
        Op::Delete(OpKey::Field(field)) => {
            fields.remove(u32::from(*field));
            Ok(())
        }
        _ => Ok(()),
    }
}

fn put_field(fields: &mut FieldValues, field: u8, value: Value) -> Result<(), Memory>
    ensures { OnOk result (fields.new ≡ put_field field value fields.old) }
{
    fields.put(FieldValue { field, value })?;
    Ok(())
}

fn apply_to_items(alloc: Global, items: &mut Items, op: &Op) -> Result<(), Memory>
    ensures { OnOk result (items.new ≡ edited_items (plain_edit op.now) items.old) }
{
    match op {
        Op::Add(OpKey::Named(number, key), value)
        | Op::DeleteAdd(OpKey::Named(number, key), value) => {
            items.put_named(alloc, *number, key, placed_value(alloc, value)?)
        }
        Op::Replace(OpKey::Item(number), value) => {
            items.put_value(*number, placed_value(alloc, value)?)
        }
        Op::Delete(OpKey::Item(number)) => {
            items.remove(*number);
            Ok(())
        }
        Op::Clear => {
            items.clear(alloc);
            Ok(())
        }
        _ => Ok(()),
    }
}

fn apply_to_slots(alloc: Global, slots: &mut Slots, op: &Op) -> Result<(), Memory>
    ensures { OnOk result (slots.new ≡ edited_slots (plain_edit op.now) slots.old) }
{
    match op {
        Op::Add(OpKey::Item(at), value) => slots.add(*at, placed_value(alloc, value)?),
        Op::Replace(OpKey::Item(at), value) | Op::DeleteAdd(OpKey::Item(at), value) => {
            slots.put(*at, placed_value(alloc, value)?)
        }
        Op::Delete(OpKey::Item(at)) => slots.empty(*at),
        Op::AddByRef(value) => slots.push_link(placed_value(alloc, value)?),
        Op::DeleteByRef(who) => slots.drop_link(*who),
        Op::Clear => {
            slots.clear();
            Ok(())
        }
        _ => Ok(()),
    }
}

fn apply_to_elements(alloc: Global, items: &mut Elements, op: &Op) -> Result<(), Memory>
    ensures { OnOk result (items.new ≡ edited_elements (plain_edit op.now) items.old) }
{
    match op {
        Op::Add(OpKey::Item(number), value)
        | Op::DeleteAdd(OpKey::Item(number), value)
        | Op::Replace(OpKey::Item(number), value) => {
            put_element(items, *number, placed_value(alloc, value)?)
        }
        Op::Delete(OpKey::Item(number)) => {
            items.remove(*number);
            Ok(())
        }
        Op::Clear => {
            items.clear();
            Ok(())
        }
        _ => Ok(()),
    }
}

// An item of a set has this number.
fn has_element(items: &Elements, number: u32) -> bool
    ensures { result ≡ list_any (λ (i : SetItem). i.number == number) items.now }
{
    items.get(number).is_some()
}

fn put_element(items: &mut Elements, number: u32, value: Value) -> Result<(), Memory>
    ensures { OnOk result (items.new ≡ put_element number value items.old) }
{
    items.put(SetItem { number, value })?;
    Ok(())
}
