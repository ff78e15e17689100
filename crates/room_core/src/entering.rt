//! How clients come into a room: reservations and openings.
ghost use Rattle.std.specs.Prelude.{◌≡◌, [], ◌∷◌, IfOk, IsTrue, OnErr, OnOk};
ghost use Rattle.room_model.specs.Room.{after_enter, after_reserve};
ghost use Rattle.room_laws.specs.Ordered.{Ordered};
ghost use Rattle.room_laws.specs.Places.{has_place_for};
ghost use Rattle.room_model.specs.Seats.{has_reservation};
ghost use Rattle.seat_ledger.specs.Calls.{Does};
ghost use Rattle.room_core.specs.Entries.{entered, opening_outs, refused_opening};
ghost use Rattle.room_core.specs.Stands.{RoomStands};
ghost use Rattle.room_core.specs.Values.{room_of};

use crate::client::Client;
use crate::frames::join_frame;
use crate::parts::Parts;
use lists::{Seq, push_exact};
use room_model::{RoomOut, RoomOuts, Seat, SeatFault, Stage};
use schema_model::{Id, Memory};
use seat_ledger::SeatLedger;
use std::alloc::Global;
use view_counts::ViewCounts;
use view_members::Members;

impl Parts {
    /// A reservation, of a session that there is a place for.
    pub fn reserve(&mut self, session: Id, lapse: u64) -> Result<(), Memory>
        requires stands { RoomStands self.old }
        requires order { Ordered (room_of self.old) }
        requires place { IsTrue (has_place_for (room_of self.old) session) }
        ensures room { OnOk result (room_of self.new ≡ after_reserve (room_of self.old) session lapse) }
        ensures stands { OnOk result (RoomStands self.new) }
        ensures order { OnErr result (Ordered (room_of self.new)) }
    {
        let client = Client {
            id: session,
            stage: Stage::Reserved,
            members: Members::new(self.alloc)?,
            view: ViewCounts::new(self.alloc, self.live.schema())?,
            queue: Seq::new(self.alloc),
            keep: self.def.keep as u32,
        };
        push_exact(&mut self.clients, client)?;
        self.places.reserve(session, lapse).unwrap();
        Ok(())
    }

    /// An opening: the session's reservation becomes a seat with a fresh token, or its kept seat does, by its own token.
    pub fn enter(&mut self, session: Id, token: Option<Id>, fresh: Id) -> Result<RoomOuts, Memory>
        requires stands { RoomStands self.old }
        requires order { Ordered (room_of self.old) }
        ensures outs { IfOk result (λ outs. outs ≡ (after_enter (room_of self.old) session token fresh).1) }
        ensures room { OnOk result (room_of self.new ≡ (after_enter (room_of self.old) session token fresh).0) }
        ensures stands { OnOk result (RoomStands self.new) }
        ensures order { OnErr result (Ordered (room_of self.new)) }
    {
        let Some(at) = self.place_of(session) else {
            return one_out(self.alloc, RoomOut::NoSeat(session));
        };
        let told = self.told_opening(session, fresh)?;
        match take_place(&mut self.places, session, token, fresh) {
            Ok(()) => {
                self.clients[at].stage = Stage::Joining;
                Ok(told)
            }
            Err(fault) => one_out(self.alloc, refused_opening(session, fault)),
        }
    }

    // What an opening gives that isn't refused.
    fn told_opening(&self, session: Id, fresh: Id) -> Result<RoomOuts, Memory>
        ensures { IfOk result (λ outs. outs ≡ opening_outs self.now.places session fresh) }
    {
        let first = if has_reservation(&self.places, session) {
            RoomOut::Entered(session)
        } else {
            RoomOut::Back(session)
        };
        let mut outs = one_out(self.alloc, first)?;
        outs.push(RoomOut::Send(session, join_frame(self.alloc, fresh)?))?;
        Ok(outs)
    }
}

// Whether a session has a reservation.
fn has_reservation(places: &SeatLedger, session: Id) -> bool
    ensures { result ≡ has_reservation places.now session }
{
    matches!(places.seat_of(session), Some(Seat::Reserved(_)))
}

// A session's reservation becomes a seat with a fresh token, or else its kept seat does, by its token.
fn take_place(
    places: &mut SeatLedger,
    session: Id,
    token: Option<Id>,
    fresh: Id,
) -> Result<(), SeatFault>
    ensures { Does (entered places.old session token fresh) places.old places.new result }
{
    if has_reservation(places, session) {
        return places.take(session, fresh);
    }
    match token {
        Some(token) => places.retake(session, token, fresh),
        None => Err(SeatFault::NoSeat),
    }
}

// What an opening gives that is refused.
fn refused_opening(session: Id, fault: SeatFault) -> RoomOut
    ensures { result ≡ refused_opening session fault }
{
    match fault {
        SeatFault::IdInUse => RoomOut::TokenInUse(session),
        SeatFault::Locked | SeatFault::Full | SeatFault::NoSeat | SeatFault::WrongToken => {
            RoomOut::NoSeat(session)
        }
    }
}

/// One output alone.
pub fn one_out(alloc: Global, out: RoomOut) -> Result<RoomOuts, Memory>
    ensures { IfOk result (λ outs. outs ≡ out ∷ []) }
{
    let mut outs = Seq::new(alloc);
    outs.push(out)?;
    Ok(outs)
}
