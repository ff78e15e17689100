//! The capacity of vectors.
ghost use Rattle.std.specs.Prelude.{◌≡◌, ◌≤◌, ◌∷◌, ◌++◌, [], OnOk, if◌then◌else◌, is_ok, vec_capacity};

use crate::memory::Memory;

/// Takes memory for so many items in all.
pub fn reserve_total<T>(items: &mut Vec<T>, total: usize) -> Result<(), Memory>
    ensures items { items.new.items ≡ items.old.items }
    ensures ok { OnOk result (total ≤ vec_capacity items.new) }
    ensures kept { vec_capacity items.old ≤ vec_capacity items.new }
{
    let more = total.saturating_sub(items.len());
    items.reserve(more)?;
    Ok(())
}

/// Adds an item at the end. A first one takes memory for one only, since many lists have no second.
pub fn push_exact<T: Drop>(items: &mut Vec<T>, item: T) -> Result<(), Memory>
    ensures { items.new.items ≡ (if is_ok result then items.old.items ++ item ∷ [] else items.old.items) }
{
    if items.is_empty() {
        items.reserve_exact(1)?;
    }
    items.push(item)?;
    Ok(())
}
