//! The shortest bytes of a value.
ghost use Rattle.std.specs.Prelude.{◌≡◌, ◌≤◌, ℕ, List, ◌++◌, true, length, Ok, OnOk, OnErr};
ghost use Rattle.std.specs.Str.{is_utf8};
ghost use Rattle.std.specs.Io.{StartsWith};
ghost use Rattle.frame_model.specs.PackData.{data_of, items_data, members_data};
ghost use Rattle.frame_model.specs.Packs.{are_texts, binary_bytes, depth, dict_head, has_bytes, is_short, items_are_texts, items_bytes, items_have_bytes, items_len, list_head, members_are_texts, members_bytes, members_have_bytes, members_len, most_levels, pack_at, pack_bytes, text_bytes};

use crate::put::{put, put_binary_head, put_dict_head, put_list_head, put_text_head, put_whole};
use frame_model::{Pack, PackPairs, Packs};
use schema_model::Memory;

/// Appends the shortest bytes of a value that has bytes, as `has_bytes` tells. An `Err` leaves `out` as it was.
pub fn write(out: &mut Vec<u8>, pack: &Pack) -> Result<(), Memory>
    requires { has_bytes (data_of pack.now) ≡ true }
    ensures ok { OnOk result (out.new.items ≡ out.old.items ++ pack_bytes (data_of pack.now)) }
    // What was written is read again, whatever follows, unless it is too deep to be read.
    ensures again { OnOk result ((more : List ℕ) → depth (data_of pack.now) ≤ most_levels →
        pack_at most_levels (out.new.items ++ more) (length out.old.items) ≡ Ok (data_of pack.now, length out.new.items)) }
    ensures err { OnErr result (out.new.items ≡ out.old.items) }
{
    let before = out.len();
    let outcome = put_pack(out, pack);
    if outcome.is_err() {
        out.truncate(before);
    }
    outcome
}

// The calls below leave on an `Err` what was there, and maybe some more bytes.
#[cycle(put)]
fn put_pack(out: &mut Vec<u8>, pack: &Pack) -> Result<(), Memory>
    requires { has_bytes (data_of pack.now) ≡ true }
    ensures ok { OnOk result (out.new.items ≡ out.old.items ++ pack_bytes (data_of pack.now)) }
    ensures texts { OnOk result (are_texts (data_of pack.now) ≡ true) }
    ensures err { OnErr result (StartsWith out.new.items out.old.items) }
{
    match pack {
        Pack::Nil => put(out, &[0xc0]),
        Pack::Truth(false) => put(out, &[0xc2]),
        Pack::Truth(true) => put(out, &[0xc3]),
        Pack::Int(number) => put_whole(out, *number),
        Pack::Str(text) => put_text(out, text.as_str()),
        Pack::Bin(bytes) => put_binary(out, bytes.as_slice()),
        Pack::List(items) => put_list(out, items),
        Pack::Map(pairs) => put_dict(out, pairs),
    }
}

#[cycle(put)]
fn put_list(out: &mut Vec<u8>, items: &Packs) -> Result<(), Memory>
    requires few { is_short (items_len (items_data items.now)) ≡ true }
    requires each { items_have_bytes (items_data items.now) ≡ true }
    ensures ok { OnOk result (out.new.items ≡ out.old.items ++ (list_head (items_len (items_data items.now)) ++ items_bytes (items_data items.now))) }
    ensures texts { OnOk result (items_are_texts (items_data items.now) ≡ true) }
    ensures err { OnErr result (StartsWith out.new.items out.old.items) }
{
    let items = items.as_slice();
    put_list_head(out, items.len() as u32)?;
    for item in items {
        put_pack(out, item)?;
    }
    Ok(())
}

#[cycle(put)]
fn put_dict(out: &mut Vec<u8>, pairs: &PackPairs) -> Result<(), Memory>
    requires few { is_short (members_len (members_data pairs.now)) ≡ true }
    requires each { members_have_bytes (members_data pairs.now) ≡ true }
    ensures ok { OnOk result (out.new.items ≡ out.old.items ++ (dict_head (members_len (members_data pairs.now)) ++ members_bytes (members_data pairs.now))) }
    ensures texts { OnOk result (members_are_texts (members_data pairs.now) ≡ true) }
    ensures err { OnErr result (StartsWith out.new.items out.old.items) }
{
    let pairs = pairs.as_slice();
    put_dict_head(out, pairs.len() as u32)?;
    for pair in pairs {
        put_text(out, pair.0.as_str())?;
        put_pack(out, &pair.1)?;
    }
    Ok(())
}

fn put_text(out: &mut Vec<u8>, text: &str) -> Result<(), Memory>
    requires { is_short (length text.now) ≡ true }
    ensures text { is_utf8 text.now ≡ true }
    ensures ok { OnOk result (out.new.items ≡ out.old.items ++ text_bytes text.now) }
    ensures err { OnErr result (StartsWith out.new.items out.old.items) }
{
    put_text_head(out, text.len() as u32)?;
    put(out, text.as_bytes())
}

fn put_binary(out: &mut Vec<u8>, bytes: &[u8]) -> Result<(), Memory>
    requires { is_short (length bytes.now) ≡ true }
    ensures ok { OnOk result (out.new.items ≡ out.old.items ++ binary_bytes bytes.now) }
    ensures err { OnErr result (StartsWith out.new.items out.old.items) }
{
    put_binary_head(out, bytes.len() as u32)?;
    put(out, bytes)
}
