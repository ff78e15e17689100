//! Holes of slots, taken out.
ghost use Rattle.std.specs.Prelude.{◌≡◌, ℕ, false};
ghost use Rattle.lists.specs.Rising.{RisesFrom};
ghost use Rattle.trees.specs.Slots.{AreOwn, ends_with_hole, entries_in, item_of, items_in, slot_number};

use crate::slot::Slot;

/// Takes the holes behind the last item out. The slots rise by their numbers.
pub fn drop_last_holes<V: Drop>(slots: &mut Vec<Slot<V>>)
    requires { RisesFrom slot_number 0 slots.old.items }
    ensures items { items_in slots.new.items ≡ items_in slots.old.items }
    ensures entries { entries_in slots.new.items ≡ entries_in slots.old.items }
    ensures rises { RisesFrom slot_number 0 slots.new.items }
    ensures own { (key : V → ℕ) → AreOwn item_of key slots.old.items → AreOwn item_of key slots.new.items }
    ensures full { ends_with_hole slots.new.items ≡ false }
{
    while ends_with_hole(slots.as_slice()) {
        let left = slots.len() - 1;
        slots.truncate(left);
    }
}

fn ends_with_hole<V>(slots: &[Slot<V>]) -> bool
    ensures { result ≡ ends_with_hole slots.now }
{
    match slots.last() {
        Some(slot) => slot.item.is_none(),
        None => false,
    }
}

/// Takes all holes out. The slots rise by their numbers.
pub fn close_holes<V: Drop>(slots: &mut Vec<Slot<V>>)
    requires { RisesFrom slot_number 0 slots.old.items }
    ensures items { items_in slots.new.items ≡ items_in slots.old.items }
    ensures entries { entries_in slots.new.items ≡ entries_in slots.old.items }
    ensures rises { RisesFrom slot_number 0 slots.new.items }
    ensures own { (key : V → ℕ) → AreOwn item_of key slots.old.items → AreOwn item_of key slots.new.items }
{
    slots.retain(|slot| slot.item.is_some());
}
