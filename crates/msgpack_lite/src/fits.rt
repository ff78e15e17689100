//! Which values have bytes.
ghost use Rattle.std.specs.Prelude.{◌≡◌};
ghost use Rattle.frame_model.specs.PackData.{data_of, dict, items_data, list, members_data};
ghost use Rattle.frame_model.specs.Packs.{has_bytes, is_short, is_whole};

use frame_model::{Pack, PackPairs, Packs};

// The least whole number, and one above the greatest.
const LEAST: i128 = -9_223_372_036_854_775_808;

const BOUND: i128 = 18_446_744_073_709_551_616;

// One above the longest length.
const LENGTH_BOUND: u64 = 4_294_967_296;

/// Whether a value has bytes: all lengths are below 2^32, and each whole number is from -2^63 to 2^64 - 1.
#[cycle(fits)]
pub fn has_bytes(pack: &Pack) -> bool
    ensures { result ≡ has_bytes (data_of pack.now) }
{
    match pack {
        Pack::Nil | Pack::Truth(_) => true,
        Pack::Int(number) => is_whole(*number),
        Pack::Str(text) => is_short(text.as_str().len()),
        Pack::Bin(bytes) => is_short(bytes.len()),
        Pack::List(items) => list_has_bytes(items),
        Pack::Map(pairs) => map_has_bytes(pairs),
    }
}

#[cycle(fits)]
fn list_has_bytes(items: &Packs) -> bool
    ensures { result ≡ has_bytes (list (items_data items.now)) }
{
    let items = items.as_slice();
    if !is_short(items.len()) {
        return false;
    }
    for item in items {
        if !has_bytes(item) {
            return false;
        }
    }
    true
}

#[cycle(fits)]
fn map_has_bytes(pairs: &PackPairs) -> bool
    ensures { result ≡ has_bytes (dict (members_data pairs.now)) }
{
    let pairs = pairs.as_slice();
    if !is_short(pairs.len()) {
        return false;
    }
    for pair in pairs {
        if !is_short(pair.0.as_str().len()) {
            return false;
        }
        if !has_bytes(&pair.1) {
            return false;
        }
    }
    true
}

fn is_whole(number: i128) -> bool
    ensures { result ≡ is_whole number }
{
    LEAST <= number && number < BOUND
}

fn is_short(len: usize) -> bool
    ensures { result ≡ is_short len }
{
    (len as u64) < LENGTH_BOUND
}
