//! The entries of places, with the indexes by which they are found.
ghost use Rattle.std.specs.Prelude.{◌≡◌, ◌≤◌, ◌<◌, ◌++◌, [], ◌∷◌, length, slice_get, slice_set, Some, IfOk};
ghost use Rattle.std.specs.List.{remove};
ghost use Rattle.room_model.specs.declared.seat.SeatEntry.{SeatEntry};
ghost use Rattle.room_model.specs.declared.seat.Seat.TheVariants.{Reserved};
ghost use Rattle.seat_ledger.specs.Places.{IsDuePlace, IsLeastLapse, IsNew, IsOwnToken, IsPlaceOf, IsSessionPlace, IsTokenPlace};

use crate::index::Index;
use crate::keys::{id_key, lapse_key, lapse_of, token_key};
use room_model::{Seat, SeatEntry};
use schema_model::{Id, Memory};
use std::alloc::Global;
use std::marker::Model;

/// Entries in the order of reserving, in memory that is taken once. A session, a token and the least lapse are found in
/// logarithmic time. What is asked at each event stands first, together, so that it is in few lines of the cache.
#[derive(Drop)]
pub struct Places {
    max: u32,
    entries: Vec<SeatEntry>,
    by_lapse: Index,
    by_session: Index,
    by_token: Index,
}

impl Model for Places {
    ghost use Rattle.std.specs.Prelude.{vec_capacity};
    ghost use Rattle.seat_ledger.specs.Places.{IsKept, PlacesState};

    ghost Value = { PlacesState };

    ghost view = { λ p. record { max = p.max; entries = p.entries.items } };

    ghost invariant = { λ p. IsKept p.max (vec_capacity p.entries) p.entries.items p.by_session p.by_token p.by_lapse };
}

impl Places {
    /// No entries, and room for so many.
    pub fn new(alloc: Global, max: u32) -> Result<Places, Memory>
        ensures { IfOk result (λ p. p ≡ record { max = max; entries = [] }) }
    {
        let room = max as usize;
        Ok(Places {
            max,
            entries: Vec::with_capacity(alloc, room)?,
            by_session: Index::new(alloc, room)?,
            by_token: Index::new(alloc, room)?,
            by_lapse: Index::new(alloc, room)?,
        })
    }

    /// How many entries there may be.
    pub fn max(&self) -> u32
        ensures { result ≡ self.now.max }
    {
        self.max
    }

    /// How many entries there are.
    pub fn len(&self) -> u32
        ensures value { result ≡ length self.now.entries }
        ensures within { result ≤ self.now.max }
    {
        self.entries.len() as u32
    }

    /// The place of a session's entry.
    pub fn place_of(&self, session: Id) -> Option<u32>
        ensures { IsSessionPlace session self.now.entries result }
    {
        self.by_session.find(id_key(session))
    }

    /// The place of the entry that has a token.
    pub fn place_with(&self, token: Id) -> Option<u32>
        ensures { IsTokenPlace token self.now.entries result }
    {
        self.by_token.find(id_key(token))
    }

    /// The place of the entry whose lapse is least and at most now; of several the first.
    pub fn first_due(&self, now: u64) -> Option<u32>
        ensures { IsDuePlace now self.now.entries result }
    {
        let slot = self.by_lapse.least()?;
        if slot.key <= u128::from(now) {
            Some(slot.at)
        } else {
            None
        }
    }

    /// The least lapse of the entries; none where nothing lapses.
    pub fn next_lapse(&self) -> Option<u64>
        ensures { IsLeastLapse self.now.entries result }
    {
        let slot = self.by_lapse.least()?;
        lapse_of(&self.entry(slot.at).seat)
    }

    /// The entry at a place.
    pub fn entry(&self, at: u32) -> SeatEntry
        requires { at < length self.now.entries }
        ensures there { slice_get self.now.entries at ≡ Some result }
        ensures place { IsPlaceOf result.session self.now.entries at }
        ensures own { IsOwnToken result.seat self.now.entries at }
    {
        self.entries[at as usize]
    }

    /// Adds a reservation behind all entries.
    pub fn add(&mut self, session: Id, lapse: u64)
        requires room { length self.old.entries < self.old.max }
        requires new { IsNew session self.old.entries }
        ensures { self.new ≡ record { max = self.old.max; entries = self.old.entries ++ record { session = session; seat = Reserved lapse } ∷ [] } }
    {
        let at = self.len();
        self.by_session.grow();
        self.by_token.grow();
        self.by_lapse.grow();
        self.by_session.add(Some(id_key(session)), at);
        self.by_lapse.add(Some(u128::from(lapse)), at);
        self.entries
            .push(SeatEntry {
                session,
                seat: Seat::Reserved(lapse),
            })
            .unwrap();
    }

    /// The entry at a place has another seat.
    pub fn put_seat(&mut self, at: u32, seat: Seat)
        requires within { at < length self.old.entries }
        requires own { IsOwnToken seat self.old.entries at }
        ensures { (e : SeatEntry) → slice_get self.old.entries at ≡ Some e → self.new ≡ record { max = self.old.max; entries = slice_set self.old.entries at (record { session = e.session; seat = seat }) } }
    {
        let old = self.entries[at as usize];
        self.by_token
            .exchange(token_key(&old.seat), token_key(&seat), at);
        self.by_lapse
            .exchange(lapse_key(&old.seat), lapse_key(&seat), at);
        let entry = SeatEntry {
            session: old.session,
            seat,
        };
        self.entries[at as usize] = entry;
    }

    /// Takes the entry at a place out; those behind it move down.
    pub fn remove(&mut self, at: u32)
        requires { at < length self.old.entries }
        ensures { self.new ≡ record { max = self.old.max; entries = remove self.old.entries at } }
    {
        let old = self.entries[at as usize];
        self.by_session.remove(Some(id_key(old.session)), at);
        self.by_token.remove(token_key(&old.seat), at);
        self.by_lapse.remove(lapse_key(&old.seat), at);
        self.entries.remove(at as usize);
    }
}
