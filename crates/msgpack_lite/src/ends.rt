//! Where values end. It takes no memory.
ghost use Rattle.std.specs.Prelude.{◌≡◌, ◌≤◌, ◌<◌, length, None, IfOk};
ghost use Rattle.frame_model.specs.Packs.{items_at, members_at, pack_at, value_of_form};
ghost use Rattle.msgpack_lite.specs.Ends.{end_of, inside};

use crate::form::form_of;
use crate::number::{byte_at, key_at, length_at, number_at, run_at, text_at};
use frame_model::PackFault;
use frame_model::form::Form;

/// The place after the value at a place, with so many levels of lists and maps left.
#[cycle(end)]
pub fn end_at(bytes: &[u8], at: usize, levels: u32) -> Result<usize, PackFault>
    requires { at ≤ length bytes.now }
    ensures value { result ≡ end_of (pack_at levels bytes.now at) }
    ensures within { IfOk result (λ end. end ≤ length bytes.now) }
{
    let (first, _) = byte_at(bytes, at)?;
    end_by_form(form_of(first), bytes, at, levels)
}

#[cycle(end)]
fn end_by_form(form: Form, bytes: &[u8], at: usize, levels: u32) -> Result<usize, PackFault>
    requires { at < length bytes.now }
    ensures value { result ≡ end_of (value_of_form (inside levels bytes.now) form bytes.now at) }
    ensures within { IfOk result (λ end. end ≤ length bytes.now) }
{
    let Some(inner) = levels.checked_sub(1) else {
        return flat_end(form, bytes, at)
    };
    match form {
        Form::List(len) => {
            let (count, start) = length_at(len, bytes, at + 1)?;
            items_end(bytes, start, count, inner)
        }
        Form::Map(len) => {
            let (count, start) = length_at(len, bytes, at + 1)?;
            members_end(bytes, start, count, inner)
        }
        _ => flat_end(form, bytes, at),
    }
}

// The place after so many values.
#[cycle(end)]
fn items_end(bytes: &[u8], start: usize, count: u64, levels: u32) -> Result<usize, PackFault>
    requires { start ≤ length bytes.now }
    ensures value { result ≡ end_of (items_at (pack_at levels bytes.now) count start) }
    ensures within { IfOk result (λ end. end ≤ length bytes.now) }
{
    let mut at = start;
    'items: for _ in 0..count {
        at = end_at(bytes, at, levels)?;
    }
    Ok(at)
}

// The place after so many keys with their values.
#[cycle(end)]
fn members_end(bytes: &[u8], start: usize, count: u64, levels: u32) -> Result<usize, PackFault>
    requires { start ≤ length bytes.now }
    ensures value { result ≡ end_of (members_at (pack_at levels bytes.now) bytes.now count start) }
    ensures within { IfOk result (λ end. end ≤ length bytes.now) }
{
    let mut at = start;
    'members: for _ in 0..count {
        let (_, next) = key_at(bytes, at)?;
        at = end_at(bytes, next, levels)?;
    }
    Ok(at)
}

// The place after a value that holds no others; a list or a map is too deep.
#[tactic(auto, unfolding(frame_model::specs::Packs::list_at, frame_model::specs::Packs::dict_at))]
fn flat_end(form: Form, bytes: &[u8], at: usize) -> Result<usize, PackFault>
    requires { at < length bytes.now }
    ensures value { result ≡ end_of (value_of_form None form bytes.now at) }
    ensures within { IfOk result (λ end. end ≤ length bytes.now) }
{
    match form {
        Form::Nil | Form::Truth(_) | Form::Small(_) => Ok(at + 1),
        Form::Unsigned(size) => Ok(number_at(size, bytes, at + 1)?.1),
        Form::Signed(size) => Ok(number_at(size, bytes, at + 1)?.1),
        Form::Text(len) => Ok(text_at(len, bytes, at)?.1),
        Form::Binary(len) => Ok(run_at(len, bytes, at + 1)?.1),
        Form::List(_) => Err(PackFault::TooDeep(at)),
        Form::Map(_) => Err(PackFault::TooDeep(at)),
        Form::Float => Err(PackFault::Float(at)),
        Form::Extension => Err(PackFault::Extension(at)),
        Form::Reserved => Err(PackFault::Reserved(at)),
    }
}
