//! A room, for whoever runs it.
ghost use Rattle.std.specs.Prelude.{◌≡◌, ◌+◌, ◌≤◌, false, is_some, IfOk, IsErr, IsTrue, OnErr, OnOk};
ghost use Rattle.room_model.specs.Definitions.{is_room_def};
ghost use Rattle.room_model.specs.Ledger.{IsNextLapse, kept_by as keeper_of};
ghost use Rattle.room_model.specs.Room.{new_room};
ghost use Rattle.room_model.specs.Seats.{in_use as places_in_use};
ghost use Rattle.room_model.specs.Sessions.{session_of};
ghost use Rattle.room_laws.specs.Places.{may_happen};
ghost use Rattle.room_like.specs.Worded.{is_worded_event};

use room_model::{RoomDef, RoomEvent, RoomOuts, Texts};
use schema_model::{Id, Memory, Schema};
use std::alloc::Global;
use std::sync::ledger::Ledger;
use steps::Steps;

/// A room. After it answered out of memory it answers it for good.
pub trait RoomLike: Sized + Drop {
    ghost use Rattle.std.specs.Prelude.{◌≡◌, ℕ, ◌≤◌, Bool, true, List};
    ghost use Rattle.schema_model.specs.Classes.{Schema};
    ghost use Rattle.room_model.specs.declared.definition.RoomDef.{RoomDef};
    ghost use Rattle.room_model.specs.declared.event.RoomEvent.{RoomEvent};
    ghost use Rattle.room_model.specs.declared.event.RoomOut.{RoomOut};
    ghost use Rattle.room_model.specs.Room.{RoomValue, new_room};
    ghost use Rattle.room_model.specs.Seats.{in_use};
    ghost use Rattle.room_laws.specs.Places.{may_happen};
    ghost use Rattle.room_laws.specs.StepLaws.{StepLaws, connected};
    ghost use Rattle.room_laws.specs.Names.{AreKeptNamed, KeepsNames};
    ghost use Rattle.room_laws.specs.Quiet.{KeepsPlaces};

    /// What it is.
    ghost room: { Self → RoomValue };

    /// Whether memory was wanting.
    ghost is_spent: { Self → Bool };

    /// Its step.
    ghost handled: { RoomValue → RoomEvent → RoomValue × List RoomOut };

    /// How many steps its step takes at most.
    ghost costs: { RoomValue → RoomEvent → ℕ };

    /// What holds of a new room, and after each step.
    ghost Holds: { RoomValue → Type 0 };

    /// A new room of a definition whose places and times are within the limits, and whose filter keys are few and differ;
    /// see `RoomDef::is_valid`.
    fn make(alloc: Global, schema: &Schema, def: &RoomDef, criteria: &Texts) -> Result<Self, Memory>
        requires { IsTrue (is_room_def def.now) }
        ensures value { IfOk result (λ r. room r ≡ new_room schema.now def.now criteria.now) }
        ensures fresh { IfOk result (λ r. is_spent r ≡ false) };

    /// The room's step. Unless the room is spent a reservation is of a session that the room doesn't have, and the room is
    /// neither locked nor full; a frame and a loss are of a session that has a connection; moments and lapses are below
    /// 2^54, the time of a Keep is at most an hour, and the kind of a message is shorter than 2^32 bytes. Any event may come
    /// to a spent room. Where it answers `Memory` the room is spent, and took no more steps than `costs` says. The texts that an
    /// event's command puts are UTF-8, as those of every command are.
    fn step<L: Ledger>(
        &mut self,
        event: &RoomEvent,
        steps: &mut Steps<L>,
    ) -> Result<RoomOuts, Memory>
        requires happen { is_spent self.old ≡ false → IsTrue (may_happen (room self.old) event.now) }
        ensures outs { IfOk result (λ outs. outs ≡ (handled (room self.old) event.now).1) }
        ensures after { OnOk result (room self.new ≡ (handled (room self.old) event.now).0) }
        ensures fresh { OnOk result (is_spent self.new ≡ false) }
        ensures spent { OnErr result (IsTrue (is_spent self.new)) }
        ensures for_good { IsTrue (is_spent self.old) → IsErr result }
        ensures cost { steps.new ≤ steps.old + costs (room self.old) event.now }
        ensures worded { IsTrue (is_worded_event event.now) };

    /// Whether an act locked it.
    fn locked(&self) -> bool
        ensures { result ≡ (room self.now).seats.locked };

    /// How many places are in use: by seats, reservations and kept seats. No more than there are, also of a spent room.
    fn in_use(&self) -> u32
        ensures value { result ≡ places_in_use (room self.now).seats }
        ensures within { result ≤ (room self.now).seats.max };

    /// How many places there are.
    fn max(&self) -> u32
        ensures { result ≡ (room self.now).seats.max };

    /// Whether it has a session of this name.
    fn has_session(&self, session: Id) -> bool
        ensures { result ≡ is_some (session_of (room self.now).sessions session) };

    /// The session whose kept seat has this token.
    fn kept_by(&self, token: Id) -> Option<Id>
        ensures { result ≡ keeper_of (room self.now).seats token };

    /// The least moment at which a reservation or a kept seat of it lapses; `None` where none does.
    fn next_lapse(&self) -> Option<u64>
        ensures { IsNextLapse (room self.now).seats result };

    /// A new room is in order.
    ghost begins: { (schema : Schema) (def : RoomDef) (criteria : List (List ℕ)) → Holds (new_room schema def criteria) };

    /// So is one after a step.
    ghost goes_on: { (r : RoomValue) (e : RoomEvent) → Holds r → may_happen r e ≡ true → Holds (handled r e).0 };

    /// A step tells who is connected, and what is given to whom.
    ghost tells: { (r : RoomValue) (e : RoomEvent) → Holds r → may_happen r e ≡ true → StepLaws r e (handled r e) };

    /// While a session is connected a place is in use.
    ghost seats: { (r : RoomValue) (id : List ℕ) → Holds r → connected r id ≡ true → 1 ≤ in_use r.seats };

    /// A step leaves no session but those that the room had and the one that the event reserves.
    ghost names: { (r : RoomValue) (e : RoomEvent) → Holds r → may_happen r e ≡ true → KeepsNames r e (handled r e).0 };

    /// A kept seat is that of a session of the room.
    ghost keepers: { (r : RoomValue) → Holds r → AreKeptNamed r };

    /// An event that is about no place leaves them all, unless it ends a connection.
    ghost quiet: { (r : RoomValue) (e : RoomEvent) → Holds r → may_happen r e ≡ true → KeepsPlaces r e (handled r e) };

    /// No more places are in use than there are.
    ghost within: { (r : RoomValue) → Holds r → in_use r.seats ≤ r.seats.max };
}
