//! Values, made of their bytes.
ghost use Rattle.std.specs.Prelude.{◌≡◌, ◌≤◌, ◌<◌, length, None, IfOk};
ghost use Rattle.frame_model.specs.PackData.{data_of, items_data, members_data};
ghost use Rattle.frame_model.specs.Packs.{items_at, members_at, pack_at, value_of_form};
ghost use Rattle.msgpack_lite.specs.Ends.{inside};
ghost use Rattle.msgpack_lite.specs.Gives.{Gives};

use crate::form::form_of;
use crate::number::{byte_at, key_at, length_at, number_at, run_at, signed_at, text_at};
use frame_model::form::Form;
use frame_model::{Pack, PackFault, PackPairs, Packs};
use schema_model::{Bytes, Text};
use std::alloc::Global;

/// The value at a place, and the place after it, with so many levels of lists and maps left.
#[cycle(build)]
pub fn value_at(
    alloc: Global,
    bytes: &[u8],
    at: usize,
    levels: u32,
) -> Result<(Pack, usize), PackFault>
    requires { at ≤ length bytes.now }
    ensures value { Gives data_of result (pack_at levels bytes.now at) }
    ensures within { IfOk result (λ read. read.1 ≤ length bytes.now) }
{
    let (first, _) = byte_at(bytes, at)?;
    value_by_form(alloc, form_of(first), bytes, at, levels)
}

#[cycle(build)]
fn value_by_form(
    alloc: Global,
    form: Form,
    bytes: &[u8],
    at: usize,
    levels: u32,
) -> Result<(Pack, usize), PackFault>
    requires { at < length bytes.now }
    ensures value { Gives data_of result (value_of_form (inside levels bytes.now) form bytes.now at) }
    ensures within { IfOk result (λ read. read.1 ≤ length bytes.now) }
{
    let Some(inner) = levels.checked_sub(1) else {
        return flat_value(alloc, form, bytes, at)
    };
    match form {
        Form::List(len) => {
            let (count, start) = length_at(len, bytes, at + 1)?;
            let (items, end) = items_from(alloc, bytes, start, count, inner)?;
            Ok((Pack::List(items), end))
        }
        Form::Map(len) => {
            let (count, start) = length_at(len, bytes, at + 1)?;
            let (pairs, end) = members_from(alloc, bytes, start, count, inner)?;
            Ok((Pack::Map(pairs), end))
        }
        _ => flat_value(alloc, form, bytes, at),
    }
}

// For how many values memory is taken at first: no more than there are bytes.
fn capacity_for(count: u64, left: usize) -> usize
    ensures { result ≤ left }
{
    count.min(left as u64) as usize
}

// So many values, and the place after them.
#[cycle(build)]
fn items_from(
    alloc: Global,
    bytes: &[u8],
    start: usize,
    count: u64,
    levels: u32,
) -> Result<(Packs, usize), PackFault>
    requires { start ≤ length bytes.now }
    ensures value { Gives items_data result (items_at (pack_at levels bytes.now) count start) }
    ensures within { IfOk result (λ read. read.1 ≤ length bytes.now) }
{
    let mut found = Packs::with_capacity(alloc, capacity_for(count, bytes.len() - start))?;
    let mut at = start;
    'items: for _ in 0..count {
        let (item, next) = value_at(alloc, bytes, at, levels)?;
        found.push(item)?;
        at = next;
    }
    Ok((found, at))
}

// So many keys with their values, and the place after them.
#[cycle(build)]
fn members_from(
    alloc: Global,
    bytes: &[u8],
    start: usize,
    count: u64,
    levels: u32,
) -> Result<(PackPairs, usize), PackFault>
    requires { start ≤ length bytes.now }
    ensures value { Gives members_data result (members_at (pack_at levels bytes.now) bytes.now count start) }
    ensures within { IfOk result (λ read. read.1 ≤ length bytes.now) }
{
    let mut found = PackPairs::with_capacity(alloc, capacity_for(count, bytes.len() - start))?;
    let mut at = start;
    'members: for _ in 0..count {
        let (name, behind) = key_at(bytes, at)?;
        let key = Text::from_text(alloc, name)?;
        let (value, next) = value_at(alloc, bytes, behind, levels)?;
        found.push((key, value))?;
        at = next;
    }
    Ok((found, at))
}

// A value that holds no others; a list or a map is too deep.
#[tactic(auto, unfolding(frame_model::specs::Packs::list_at, frame_model::specs::Packs::dict_at))]
fn flat_value(
    alloc: Global,
    form: Form,
    bytes: &[u8],
    at: usize,
) -> Result<(Pack, usize), PackFault>
    requires { at < length bytes.now }
    ensures value { Gives data_of result (value_of_form None form bytes.now at) }
    ensures within { IfOk result (λ read. read.1 ≤ length bytes.now) }
{
    match form {
        Form::Nil => Ok((Pack::Nil, at + 1)),
        Form::Truth(truth) => Ok((Pack::Truth(truth), at + 1)),
        Form::Small(number) => Ok((Pack::Int(i128::from(number)), at + 1)),
        Form::Unsigned(size) => {
            let (number, end) = number_at(size, bytes, at + 1)?;
            Ok((Pack::Int(i128::from(number)), end))
        }
        Form::Signed(size) => {
            let (number, end) = signed_at(size, bytes, at + 1)?;
            Ok((Pack::Int(i128::from(number)), end))
        }
        Form::Text(len) => {
            let (text, end) = text_at(len, bytes, at)?;
            Ok((Pack::Str(Text::from_text(alloc, text)?), end))
        }
        Form::Binary(len) => {
            let (run, end) = run_at(len, bytes, at + 1)?;
            Ok((Pack::Bin(Bytes::from_slice(alloc, run)?), end))
        }
        Form::List(_) => Err(PackFault::TooDeep(at)),
        Form::Map(_) => Err(PackFault::TooDeep(at)),
        Form::Float => Err(PackFault::Float(at)),
        Form::Extension => Err(PackFault::Extension(at)),
        Form::Reserved => Err(PackFault::Reserved(at)),
    }
}
