ghost use Rattle.std.specs.Prelude.{◌≡◌, ◌<◌, ◌≤◌, ◌+◌, ◌-◌, ◌^◌, [], ◌∷◌, ◌++◌, map, set, length, Some, None, OnOk, IfOk};
ghost use Rattle.std.specs.List.{position};
ghost use Rattle.wire_model.specs.Effect.{closed_slots, is_present_at, put_slot, add_slot, empty_slot, has_link, push_link, drop_link};
ghost use Rattle.lists.specs.Rising.{RisesFrom};
ghost use Rattle.wire_ops.specs.Places.{count_passed, count_below};

use crate::links::LinkPlaces;
use lists::{Memory, Seq};
use schema_model::{RefNum, Value};
use state_model::Values;
use std::alloc::Global;
use std::collections::VecDeque;
use std::marker::Model;
use std::mem;

// The place of the first slot, as long as none is put before it.
const START: u64 = 1 << 63;

// Closed holes stay between the slots, which don't move then. Only where there would be more than
// these, and one more for so many places, the array is opened anew.
const MOST_CLOSED: usize = 512;

const PLACES_EACH: usize = 8;

/// What stands at a place of an array: a value, a hole, or a closed hole, which is no slot any more.
#[derive(Drop)]
pub enum Slot {
    Held(Value),
    Hole,
    Closed,
}

impl Slot {
    ghost use Rattle.std.specs.Prelude.{◌≡◌, Some, OnOk, OnErr, is_some};
    ghost use Rattle.wire_ops.specs.Places.{NotesNoMore, NotesAt, NotesInstead};
    ghost use Rattle.wire_ops.specs.Slots.{held, is_hole};

    fn is_held(&self) -> bool
        ensures { result ≡ is_some (held self.now) }
    {
        matches!(self, Slot::Held(_))
    }

    fn is_hole(&self) -> bool
        ensures { result ≡ is_hole self.now }
    {
        matches!(self, Slot::Hole)
    }

    // A value comes to its place: the value's link is noted, and its own no more. An `Err` changes
    // nothing.
    fn make_way(&self, value: &Value, links: &mut LinkPlaces, place: u64) -> Result<(), Memory>
        requires { NotesAt (held self.now) place links.old }
        ensures ok { OnOk result (NotesInstead (Some value.now) place links.old links.new) }
        ensures err { OnErr result (links.new ≡ links.old) }
    {
        match self {
            Slot::Held(old) => links.exchange(old, value, place),
            Slot::Hole | Slot::Closed => links.add(value, place),
        }
    }

    // A hole comes to its place: its link is noted no more.
    fn leave(self, links: &mut LinkPlaces, place: u64)
        ensures { NotesNoMore (held self) place links.old links.new }
    {
        if let Slot::Held(value) = self {
            links.remove(&value, place);
        }
    }
}

/// The slots of an array while operations run: a slot may be a hole. A slot is set, put first
/// and put at the end, and a link is found, in logarithmic time.
#[derive(Drop)]
pub struct Slots {
    slots: VecDeque<Slot>,
    // The first place; each place is one above the one before it.
    first: u64,
    links: LinkPlaces,
    // The places of closed holes, rising.
    closed: Vec<u64>,
    // The places where holes were made since the last rest. A value may stand there again.
    holes: Vec<u64>,
}

impl Model for Slots {
    ghost use Rattle.std.specs.Prelude.{List, Option};
    ghost use Rattle.schema_model.specs.declared.value.Value as value;
    ghost use Rattle.wire_ops.specs.Slots.{shown, IsKept};

    ghost Value = { List (Option value.Value) };

    ghost view = { λ s. shown s.slots.items };

    // Slots are put before the first place at most as often as there are places, so that these
    // stay within 64 bits.
    ghost invariant = { λ s. IsKept s.slots.items s.first s.links s.closed.items s.holes.items };
}

impl Slots {
    ghost use Rattle.wire_ops.specs.Slots.{closed_places, hole_closed};

    fn new(alloc: Global) -> Slots
        ensures { result ≡ [] }
    {
        Slots {
            slots: VecDeque::new(alloc),
            first: START,
            links: LinkPlaces::new(alloc),
            closed: Vec::new(alloc),
            holes: Vec::new(alloc),
        }
    }

    /// The values of an array, taken over. Takes their number times its logarithm.
    pub(crate) fn open(alloc: Global, values: Values) -> Result<Slots, Memory>
        ensures { IfOk result (λ s. s ≡ map Some values) }
    {
        let mut slots = Slots::new(alloc);
        for value in values.into_vec() {
            slots.push(value)?;
        }
        Ok(slots)
    }

    /// The values of the slots that are no holes.
    pub(crate) fn close(self, alloc: Global) -> Result<Values, Memory>
        ensures { IfOk result (λ values. values ≡ closed_slots self) }
    {
        let mut values = Seq::new(alloc);
        for slot in self.slots {
            match slot {
                Slot::Held(value) => values.push(value)?,
                Slot::Hole | Slot::Closed => {}
            }
        }
        Ok(values)
    }

    /// The slots as they are when they were closed and are opened again: without holes. A hole that
    /// was made since the last rest takes logarithmic time, but that the numbers of closed places
    /// behind it move up. Once in 512 holes, and one more for eight slots, it takes as long as to
    /// open the array.
    pub(crate) fn rest(self, alloc: Global) -> Result<Slots, Memory>
        ensures { IfOk result (λ s. s ≡ map Some (closed_slots self)) }
    {
        let most = MOST_CLOSED + self.slots.len() / PLACES_EACH;
        if self.closed.len() + self.holes.len() > most {
            let values = self.close(alloc)?;
            return Slots::open(alloc, values);
        }
        let mut slots = self.slots;
        let mut closed = self.closed;
        for place in self.holes {
            Slots::close_hole(&mut slots, &mut closed, self.first, place)?;
        }
        Ok(Slots {
            slots,
            first: self.first,
            links: self.links,
            closed,
            holes: Vec::new(alloc),
        })
    }

    // Closes what stands at a place, where it is a hole. After an `Err` both are any.
    fn close_hole(
        slots: &mut VecDeque<Slot>,
        closed: &mut Vec<u64>,
        first: u64,
        place: u64,
    ) -> Result<(), Memory>
        requires within { (first ≤ place) × (place < first + length slots.old.items) }
        requires closed { closed.old.items ≡ closed_places first slots.old.items }
        ensures slots { OnOk result (slots.new.items ≡ hole_closed (place - first) slots.old.items) }
        ensures closed { OnOk result (closed.new.items ≡ closed_places first slots.new.items) }
    {
        let at = (place - first) as usize;
        if slots[at].is_hole() {
            closed.insert(count_below(closed, place), place)?;
            slots[at] = Slot::Closed;
        }
        Ok(())
    }

    /// The number of slots, with the holes.
    pub(crate) fn len(&self) -> usize
        ensures { result ≡ length self.now }
    {
        self.slots.len() - self.closed.len()
    }

    /// Adds a value at a position: at 0, where a value is present there, before that one.
    pub(crate) fn add(&mut self, at: u32, value: Value) -> Result<(), Memory>
        ensures { OnOk result (self.new ≡ add_slot at value self.old) }
    {
        if at == 0 && self.is_first_present() {
            self.push_front(value)
        } else {
            self.put(at, value)
        }
    }

    fn is_first_present(&self) -> bool
        ensures { result ≡ is_present_at self.now 0 }
    {
        self.len() > 0 && self.slots[index_of(&self.closed, self.first, 0)].is_held()
    }

    /// Puts a value into a slot below the length, or at the end; further on nothing happens.
    pub(crate) fn put(&mut self, at: u32, value: Value) -> Result<(), Memory>
        ensures { OnOk result (self.new ≡ put_slot at value self.old) }
    {
        let at = at as usize;
        if at < self.len() {
            self.set(at, value)
        } else if at == self.len() {
            self.push(value)
        } else {
            Ok(())
        }
    }

    /// Makes a hole of a slot below the length.
    pub(crate) fn empty(&mut self, at: u32) -> Result<(), Memory>
        ensures { OnOk result (self.new ≡ empty_slot at self.old) }
    {
        if (at as usize) < self.len() {
            self.make_hole(at as usize)?;
        }
        Ok(())
    }

    /// Puts a link at the end, where it isn't there.
    pub(crate) fn push_link(&mut self, value: Value) -> Result<(), Memory>
        ensures { OnOk result (self.new ≡ push_link value self.old) }
    {
        let Value::Link(who) = &value else {
            return Ok(());
        };
        if self.position(*who).is_some() {
            return Ok(());
        }
        self.push(value)
    }

    /// Makes a hole of the first slot with a link.
    pub(crate) fn drop_link(&mut self, who: RefNum) -> Result<(), Memory>
        ensures { OnOk result (self.new ≡ drop_link who self.old) }
    {
        if let Some(at) = self.position(who) {
            self.make_hole(at)?;
        }
        Ok(())
    }

    // The position of the first slot with a link.
    fn position(&self, who: RefNum) -> Option<usize>
        ensures { result ≡ position (has_link who) self.now }
    {
        let place = self.links.first(who.0)?;
        Some((place - self.first) as usize - count_below(&self.closed, place))
    }

    /// Takes all slots away.
    pub(crate) fn clear(&mut self)
        ensures { self.new ≡ [] }
    {
        self.slots.clear();
        self.links.clear();
        self.closed.clear();
        self.holes.clear();
        self.first = START;
    }

    // Puts a value at the end. An `Err` changes nothing.
    fn push(&mut self, value: Value) -> Result<(), Memory>
        ensures { OnOk result (self.new ≡ self.old ++ Some value ∷ []) }
    {
        self.slots.reserve(1)?;
        self.links
            .add(&value, self.first + self.slots.len() as u64)?;
        self.slots.push_back_reserved(Slot::Held(value));
        Ok(())
    }

    // Puts a value before all slots. An `Err` changes nothing.
    fn push_front(&mut self, value: Value) -> Result<(), Memory>
        ensures { OnOk result (self.new ≡ Some value ∷ self.old) }
    {
        self.slots.reserve(1)?;
        self.links.add(&value, self.first - 1)?;
        self.slots.push_front_reserved(Slot::Held(value));
        self.first -= 1;
        Ok(())
    }

    // Puts a value into a slot, whose old link is noted no more. An `Err` changes nothing.
    fn set(&mut self, at: usize, value: Value) -> Result<(), Memory>
        requires { at < length self.old }
        ensures { OnOk result (self.new ≡ set self.old at (Some value)) }
    {
        let index = index_of(&self.closed, self.first, at);
        let place = self.first + index as u64;
        self.slots[index].make_way(&value, &mut self.links, place)?;
        self.slots[index] = Slot::Held(value);
        Ok(())
    }

    // Makes a hole of a slot, whose link is noted no more. An `Err` changes nothing.
    fn make_hole(&mut self, at: usize) -> Result<(), Memory>
        requires { at < length self.old }
        ensures { OnOk result (self.new ≡ set self.old at None) }
    {
        let index = index_of(&self.closed, self.first, at);
        let place = self.first + index as u64;
        self.holes.push(place)?;
        mem::replace(&mut self.slots[index], Slot::Hole).leave(&mut self.links, place);
        Ok(())
    }
}

// The index of the slot at a position: the closed places at or below it are passed over.
fn index_of(closed: &[u64], first: u64, at: usize) -> usize
    requires rising { RisesFrom (λ p. p) 0 closed.now }
    requires fits { first + at + length closed.now < 2 ^ 64 }
    ensures { result ≡ at + count_passed closed.now (first + at) }
{
    let start = first + at as u64;
    let mut low = 0;
    let mut high = closed.len();
    while low < high {
        let middle = low + (high - low) / 2;
        if closed[middle] <= start + middle as u64 {
            low = middle + 1;
        } else {
            high = middle;
        }
    }
    at + low
}

// The number of closed places below a place.
fn count_below(closed: &[u64], place: u64) -> usize
    requires { RisesFrom (λ p. p) 0 closed.now }
    ensures { result ≡ count_below closed.now place }
{
    let mut low = 0;
    let mut high = closed.len();
    while low < high {
        let middle = low + (high - low) / 2;
        if closed[middle] < place {
            low = middle + 1;
        } else {
            high = middle;
        }
    }
    low
}
