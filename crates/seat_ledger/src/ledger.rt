//! The places of a room.
ghost use Rattle.std.specs.Prelude.{◌≡◌, ◌≤◌, IfOk};
ghost use Rattle.room_model.specs.Ledger as ledger;
ghost use Rattle.room_model.specs.Seats.{in_use, new_seats, seat_of};
ghost use Rattle.seat_ledger.specs.Calls.{Does, Expires, LapsesAt, StandsAt};
ghost use Rattle.seat_ledger.specs.Places.{IsPlaceOf};

use crate::places::Places;
use room_model::{Seat, SeatFault};
use schema_model::{Id, Memory};
use std::alloc::Global;
use std::marker::Model;

/// The places of a room: which sessions have a seat, a reservation or a kept seat, in the order of reserving. All memory
/// is taken by `new`. A session, a token and the least lapse are found in logarithmic time.
#[derive(Drop)]
pub struct SeatLedger {
    locked: bool,
    places: Places,
}

impl Model for SeatLedger {
    ghost use Rattle.room_model.specs.Seats.{Seats};

    ghost Value = { Seats };

    ghost view = { λ l. record { max = l.places.max; locked = l.locked; entries = l.places.entries } };
}

impl SeatLedger {
    /// So many places, of which none is taken.
    pub fn new(alloc: Global, max: u32) -> Result<SeatLedger, Memory>
        requires least { 1 ≤ max }
        ensures { IfOk result (λ l. l ≡ new_seats max) }
    {
        Ok(SeatLedger {
            places: Places::new(alloc, max)?,
            locked: false,
        })
    }

    /// A session gets a reservation until a moment: `Locked` where an act locked the places, `Full` where all are taken,
    /// `IdInUse` where the session has one.
    pub fn reserve(&mut self, session: Id, lapse: u64) -> Result<(), SeatFault>
        ensures { Does (ledger.reserve self.old session lapse) self.old self.new result }
    {
        if self.locked {
            return Err(SeatFault::Locked);
        }
        if self.is_full() {
            return Err(SeatFault::Full);
        }
        if self.places.place_of(session).is_some() {
            return Err(SeatFault::IdInUse);
        }
        self.places.add(session, lapse);
        Ok(())
    }

    /// The session's reservation becomes a seat with a fresh token: `NoSeat` where it has no reservation, `IdInUse` where
    /// the token is a seat's or a kept seat's.
    pub fn take(&mut self, session: Id, fresh: Id) -> Result<(), SeatFault>
        ensures { Does (ledger.take_seat self.old session fresh) self.old self.new result }
    {
        let Some(at) = self.places.place_of(session) else {
            return Err(SeatFault::NoSeat);
        };
        match self.places.entry(at).seat {
            Seat::Reserved(_) => self.seat_with(session, at, fresh),
            Seat::Taken(_) => Err(SeatFault::NoSeat),
            Seat::Kept(_, _) => Err(SeatFault::NoSeat),
        }
    }

    /// The session's kept seat becomes a seat with a fresh token: `NoSeat` where it has no kept seat, `WrongToken` where
    /// that has another token, `IdInUse` where the fresh token is a seat's or a kept seat's, this one's included.
    pub fn retake(&mut self, session: Id, token: Id, fresh: Id) -> Result<(), SeatFault>
        ensures { Does (ledger.retake self.old session token fresh) self.old self.new result }
    {
        let Some(at) = self.places.place_of(session) else {
            return Err(SeatFault::NoSeat);
        };
        let entry = self.places.entry(at);
        match &entry.seat {
            Seat::Reserved(_) => Err(SeatFault::NoSeat),
            Seat::Taken(_) => Err(SeatFault::NoSeat),
            Seat::Kept(own, _) => {
                if *own == token {
                    self.seat_with(session, at, fresh)
                } else {
                    Err(SeatFault::WrongToken)
                }
            }
        }
    }

    /// The session's seat becomes a kept seat until a moment: `NoSeat` where it has no seat.
    pub fn keep(&mut self, session: Id, lapse: u64) -> Result<(), SeatFault>
        ensures { Does (ledger.keep self.old session lapse) self.old self.new result }
    {
        let Some(at) = self.places.place_of(session) else {
            return Err(SeatFault::NoSeat);
        };
        let entry = self.places.entry(at);
        match &entry.seat {
            Seat::Reserved(_) => Err(SeatFault::NoSeat),
            Seat::Taken(token) => {
                self.places.put_seat(at, Seat::Kept(*token, lapse));
                Ok(())
            }
            Seat::Kept(_, _) => Err(SeatFault::NoSeat),
        }
    }

    /// The session leaves, whatever it has: `NoSeat` where it has nothing.
    pub fn leave(&mut self, session: Id) -> Result<(), SeatFault>
        ensures { Does (ledger.leave self.old session) self.old self.new result }
    {
        let Some(at) = self.places.place_of(session) else {
            return Err(SeatFault::NoSeat);
        };
        self.places.remove(at);
        Ok(())
    }

    /// Takes the session out whose lapse is least and at most now; of several the one that was reserved first. `None`
    /// exactly where there is none.
    pub fn expire(&mut self, now: u64) -> Option<Id>
        ensures { Expires (ledger.expire self.old now) self.old self.new result }
    {
        let at = self.places.first_due(now)?;
        let session = self.places.entry(at).session;
        self.places.remove(at);
        Some(session)
    }

    /// Where the entry stands that `expire` takes out; `None` where it takes none.
    pub fn due(&self, now: u64) -> Option<u32>
        ensures { LapsesAt now self.now result }
    {
        self.places.first_due(now)
    }

    /// The least moment at which an entry lapses; `None` where none does.
    pub fn next_lapse(&self) -> Option<u64>
        ensures { ledger.IsNextLapse self.now result }
    {
        self.places.next_lapse()
    }

    /// Sets the mark that an act locked the places.
    pub fn set_locked(&mut self, on: bool)
        ensures { self.new ≡ ledger.set_locked self.old on }
    {
        self.locked = on;
    }

    /// Whether an act locked the places.
    pub fn locked(&self) -> bool
        ensures { result ≡ self.now.locked }
    {
        self.locked
    }

    /// How many places are taken: by seats, reservations and kept seats. No more than there are.
    pub fn in_use(&self) -> u32
        ensures value { result ≡ in_use self.now }
        ensures within { result ≤ self.now.max }
    {
        self.places.len()
    }

    /// How many places there are.
    pub fn max(&self) -> u32
        ensures { result ≡ self.now.max }
    {
        self.places.max()
    }

    /// What a session has; `None` where it has nothing.
    pub fn seat_of(&self, session: Id) -> Option<Seat>
        ensures { result ≡ seat_of self.now session }
    {
        let at = self.places.place_of(session)?;
        Some(self.places.entry(at).seat)
    }

    /// Where the entry of a session stands in the order of reserving; `None` where it has none.
    pub fn place_of(&self, session: Id) -> Option<u32>
        ensures { StandsAt session self.now.entries result }
    {
        self.places.place_of(session)
    }

    /// The session whose kept seat has this token.
    pub fn kept_by(&self, token: Id) -> Option<Id>
        ensures { result ≡ ledger.kept_by self.now token }
    {
        let at = self.places.place_with(token)?;
        let entry = self.places.entry(at);
        match entry.seat {
            Seat::Reserved(_) => None,
            Seat::Taken(_) => None,
            Seat::Kept(_, _) => Some(entry.session),
        }
    }

    // Whether no place is left.
    fn is_full(&self) -> bool
        ensures { result ≡ ledger.is_full self.now }
    {
        self.places.max() <= self.places.len()
    }

    // The session whose entry stands at a place has a seat with a fresh token from now on.
    fn seat_with(&mut self, session: Id, at: u32, fresh: Id) -> Result<(), SeatFault>
        requires { IsPlaceOf session self.old.entries at }
        ensures { Does (ledger.seated_with self.old session fresh) self.old self.new result }
    {
        if self.places.place_with(fresh).is_some() {
            return Err(SeatFault::IdInUse);
        }
        self.places.put_seat(at, Seat::Taken(fresh));
        Ok(())
    }
}
