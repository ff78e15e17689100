//! The numbers of old and new places, rising: a merge of two rising lists.
ghost use Rattle.std.specs.Prelude.{◌≡◌, IfOk, map, nat_lt, if◌then◌else◌};
ghost use Rattle.lists.specs.Rising.{RisesFrom};
ghost use Rattle.wire_model.specs.Patch.{either_number};
ghost use Rattle.canon_patch.specs.Merge.{least_number, behind};

use lists::{Keyed, Memory, Rising};
use std::alloc::Global;

// The numbers that stand in either list, rising.
pub(crate) fn either_numbers<T: Keyed>(
    alloc: Global,
    old: &Rising<T>,
    new: &Rising<T>,
) -> Result<Vec<u32>, Memory>
    ensures { IfOk result (λ ns. ns.items ≡ either_number (map T.key old.now) (map T.key new.now)) }
{
    let (no_old, no_new) = (old.is_empty(), new.is_empty());
    if no_old && no_new {
        return Ok(Vec::new(alloc));
    }
    merged(alloc, old.as_slice(), new.as_slice())
}

#[tactic(auto, using(crate::proofs::MergeLaws::merge_end, crate::proofs::MergeLaws::merge_shorter))]
fn merged<T: Keyed>(alloc: Global, old: &[T], new: &[T]) -> Result<Vec<u32>, Memory>
    requires old { RisesFrom T.key 0 old.now }
    requires new { RisesFrom T.key 0 new.now }
    ensures { IfOk result (λ ns. ns.items ≡ either_number (map T.key old.now) (map T.key new.now)) }
{
    let mut numbers = Vec::new(alloc);
    let mut left = old;
    let mut right = new;
    while let Some(number) = least(left, right) {
        numbers.push(number)?;
        left = behind(left, number);
        right = behind(right, number);
    }
    Ok(numbers)
}

// The lesser one of the first numbers.
fn least<T: Keyed>(old: &[T], new: &[T]) -> Option<u32>
    ensures { result ≡ least_number (map T.key old.now) (map T.key new.now) }
{
    match (old.first(), new.first()) {
        (None, None) => None,
        (Some(item), None) | (None, Some(item)) => Some(item.key()),
        (Some(a), Some(b)) => Some(lesser(a.key(), b.key())),
    }
}

fn lesser(a: u32, b: u32) -> u32
    ensures { result ≡ (if nat_lt b a then b else a) }
{
    if b < a { b } else { a }
}

// The items without a first one of this number.
fn behind<T: Keyed>(items: &[T], number: u32) -> &[T]
    ensures { result.now ≡ behind T.key number items.now }
{
    match items.split_first() {
        Some((first, others)) if first.key() == number => others,
        _ => items,
    }
}
