//! Changes of a row's places, each as the command of its name makes them.
ghost use Rattle.std.specs.Prelude.{◌≡◌, ℕ, ◌+◌, ◌<◌, ◌^◌, IfSome, OnErr, OnOk, Some, is_ok, length, true};
ghost use Rattle.std.specs.Option.{option_map};
ghost use Rattle.state_model.specs.Rows.{values_in};
ghost use Rattle.state_model.specs.declared.command.Command.TheVariants as command;
ghost use Rattle.state_model.specs.Commands.{edited, gives_number};
ghost use Rattle.command_laws.specs.Accounts.{one_if};
ghost use Rattle.instance_table.specs.Bodies.{CanEdit, HasNumber, edited_body, given_of, row_of, takes_out};
ghost use Rattle.instance_table.specs.Found.{item_number};

use crate::body::Body;
use collection_ops::ItemFault;
use lists::{Memory, Text};
use schema_model::Value;
use state_model::{Command, FieldValue};
use std::alloc::Global;

// Sets a field of an instance.
fn put_field(body: &mut Body, field: u8, value: Value) -> Result<(), Memory>
    ensures row { OnOk result (row_of body.new ≡ edited (command.Put 0 field value) 0 (row_of body.old)) }
    ensures given { OnOk result (given_of body.new ≡ given_of body.old) }
    ensures err { OnErr result (body.new ≡ body.old) }
{
    if let Body::Struct(_, fields) = body {
        fields.put(FieldValue { field, value })?;
    }
    Ok(())
}

// Takes a field of an instance away.
fn unset(body: &mut Body, field: u8)
    ensures row { row_of body.new ≡ edited (command.Unset 0 field) 0 (row_of body.old) }
    ensures given { given_of body.new ≡ given_of body.old }
{
    if let Body::Struct(_, fields) = body {
        fields.remove(u32::from(field));
    }
}

// Sets the item of a key of a map.
fn put_key(body: &mut Body, key: &Text, value: Value, number: Option<u32>) -> Result<(), Memory>
    requires number { number ≡ item_number (command.PutKey 0 key.now value) (row_of body.old) }
    requires left { gives_number (command.PutKey 0 key.now value) (Some (row_of body.old)) ≡ true → HasNumber (given_of body.old) }
    ensures row { (n : ℕ) → IfSome (given_of body.old) (λ g. g ≡ n) → OnOk result (row_of body.new ≡ edited (command.PutKey 0 key.now value) n (row_of body.old)) }
    ensures given { OnOk result (given_of body.new
        ≡ option_map (λ n. n + one_if (gives_number (command.PutKey 0 key.now value) (Some (row_of body.old)))) (given_of body.old)) }
    ensures err { OnErr result (body.new ≡ body.old) }
{
    match body {
        Body::Map(_, items) => {
            match items.put_at(number, key, value) {
                Ok(_) => Ok(()),
                Err(ItemFault::Memory) => Err(Memory),
                Err(ItemFault::NumbersSpent) => unreachable!(),
                Err(ItemFault::NoItem | ItemFault::Present) => unreachable!(),
            }
        }
        _ => Ok(()),
    }
}

// Takes the item of a key of a map away.
fn del_key(body: &mut Body, key: &Text, number: Option<u32>)
    requires { number ≡ item_number (command.DelKey 0 key.now) (row_of body.old) }
    ensures row { row_of body.new ≡ edited (command.DelKey 0 key.now) 0 (row_of body.old) }
    ensures given { given_of body.new ≡ given_of body.old }
{
    let Body::Map(_, items) = body else {
        return;
    };
    let Some(number) = number else {
        return;
    };
    let _ = items.remove_at(number, key.as_str());
}

// Adds an item at the end of an array.
fn push(body: &mut Body, value: Value) -> Result<(), Memory>
    requires { length (values_in (row_of body.old)) < 2 ^ 31 }
    ensures row { OnOk result (row_of body.new ≡ edited (command.Push 0 value) 0 (row_of body.old)) }
    ensures given { OnOk result (given_of body.new ≡ given_of body.old) }
    ensures err { OnErr result (body.new ≡ body.old) }
{
    match body {
        Body::Array(_, values) => values.push(value),
        _ => Ok(()),
    }
}

// Sets the item at a position of an array.
fn set_at(body: &mut Body, at: u32, value: Value)
    ensures row { row_of body.new ≡ edited (command.SetAt 0 at value) 0 (row_of body.old) }
    ensures given { given_of body.new ≡ given_of body.old }
{
    if let Body::Array(_, values) = body {
        let _ = values.put_at(at, value);
    }
}

// Takes the item at a position of an array away.
fn del_at(body: &mut Body, at: u32)
    ensures row { row_of body.new ≡ edited (command.DelAt 0 at) 0 (row_of body.old) }
    ensures given { given_of body.new ≡ given_of body.old }
{
    if let Body::Array(_, values) = body {
        let _ = values.remove_at(at);
    }
}

// Adds a value to a set that doesn't hold it.
fn add(body: &mut Body, value: Value, number: Option<u32>) -> Result<(), Memory>
    requires number { number ≡ item_number (command.Add 0 value) (row_of body.old) }
    requires left { gives_number (command.Add 0 value) (Some (row_of body.old)) ≡ true → HasNumber (given_of body.old) }
    ensures row { (n : ℕ) → IfSome (given_of body.old) (λ g. g ≡ n) → OnOk result (row_of body.new ≡ edited (command.Add 0 value) n (row_of body.old)) }
    ensures given { OnOk result (given_of body.new
        ≡ option_map (λ n. n + one_if (gives_number (command.Add 0 value) (Some (row_of body.old)))) (given_of body.old)) }
    ensures err { OnErr result (body.new ≡ body.old) }
{
    let Body::Set(_, items) = body else {
        return Ok(());
    };
    if number.is_some() {
        return Ok(());
    }
    match items.add_new(value) {
        Ok(_) => Ok(()),
        Err(ItemFault::Memory) => Err(Memory),
        Err(ItemFault::Present) => unreachable!(),
        Err(ItemFault::NoItem | ItemFault::NumbersSpent) => unreachable!(),
    }
}

// Takes a value out of a set.
fn del(body: &mut Body, value: &Value, number: Option<u32>)
    requires { number ≡ item_number (command.Del 0 value.now) (row_of body.old) }
    ensures row { row_of body.new ≡ edited (command.Del 0 value.now) 0 (row_of body.old) }
    ensures given { given_of body.new ≡ given_of body.old }
{
    let Body::Set(_, items) = body else {
        return;
    };
    let Some(number) = number else {
        return;
    };
    let _ = items.remove_at(number, value);
}

// Takes all items of a collection away.
fn clear(body: &mut Body)
    ensures row { row_of body.new ≡ edited (command.Clear 0) 0 (row_of body.old) }
    ensures given { given_of body.new ≡ given_of body.old }
{
    match body {
        Body::Struct(..) => {}
        Body::Map(_, items) => items.clear(),
        Body::Array(_, values) => values.clear(),
        Body::Set(_, items) => items.clear(),
    }
}

// Changes the places of a row as a command does.
fn edit_places(
    body: &mut Body,
    alloc: Global,
    command: &Command,
    number: Option<u32>,
) -> Result<(), Memory>
    requires found { number ≡ item_number command.now (row_of body.old) }
    requires left { gives_number command.now (Some (row_of body.old)) ≡ true → HasNumber (given_of body.old) }
    requires few { length (values_in (row_of body.old)) < 2 ^ 31 }
    ensures row { (n : ℕ) → IfSome (given_of body.old) (λ g. g ≡ n) → OnOk result (row_of body.new ≡ edited command.now n (row_of body.old)) }
    ensures given { OnOk result (given_of body.new
        ≡ option_map (λ n. n + one_if (gives_number command.now (Some (row_of body.old)))) (given_of body.old)) }
    ensures err { OnErr result (body.new ≡ body.old) }
    ensures sure { takes_out command.now ≡ true → is_ok result ≡ true }
{
    match command {
        Command::Make(_) | Command::MakeFor(_) => {}
        Command::Put(_, field, value) => put_field(body, *field, value.copy(alloc)?)?,
        Command::Unset(_, field) => unset(body, *field),
        Command::PutKey(_, key, value) => put_key(body, key, value.copy(alloc)?, number)?,
        Command::DelKey(_, key) => del_key(body, key, number),
        Command::Push(_, value) => push(body, value.copy(alloc)?)?,
        Command::SetAt(_, at, value) => set_at(body, *at, value.copy(alloc)?),
        Command::DelAt(_, at) => del_at(body, *at),
        Command::Add(_, value) => add(body, value.copy(alloc)?, number)?,
        Command::Del(_, value) => del(body, value, number),
        Command::Clear(_) => clear(body),
    }
    Ok(())
}

/// Changes the places of a row as a command does. What only takes places out takes no memory.
pub fn edit(
    body: &mut Body,
    alloc: Global,
    command: &Command,
    number: Option<u32>,
) -> Result<(), Memory>
    requires found { number ≡ item_number command.now (row_of body.old) }
    requires can { CanEdit command.now body.old }
    ensures after { OnOk result (body.new ≡ edited_body command.now body.old) }
    ensures err { OnErr result (body.new ≡ body.old) }
    ensures sure { takes_out command.now ≡ true → is_ok result ≡ true }
{
    edit_places(body, alloc, command, number)
}
