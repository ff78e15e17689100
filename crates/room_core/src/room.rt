//! A room.
ghost use Rattle.std.specs.Prelude.{◌≡◌, ◌+◌, ◌≤◌, IfOk, IsTrue, OnErr, OnOk};
ghost use Rattle.room_model.specs.Room.{after_act, room_step};
ghost use Rattle.room_laws.specs.Ordered.{Ordered};
ghost use Rattle.room_laws.specs.Placed.{stage_of};
ghost use Rattle.room_laws.specs.Places.{is_connected_in, may_act, may_happen};
ghost use Rattle.live_state.specs.Live.{schema_of};
ghost use Rattle.room_core.specs.Costs.{act_cost, step_cost};
ghost use Rattle.room_core.specs.Stands.{RoomStands};
ghost use Rattle.room_core.specs.Values.{live_count, room_of};

use crate::clients::{has_connection, live_among};
use crate::frames::{message_frame, raw_frame};
use crate::parts::Parts;
use crate::takes::is_moment;
use crate::view_edit::ViewEdit;
use lists::Seq;
use live_state::LiveState;
use room_like::{RoomLike, know_event, may_reserve};
use room_model::{Act, RoomDef, RoomEvent, RoomOuts, Stage, Texts, copy_texts};
use schema_model::{Id, Memory, Schema};
use seat_ledger::SeatLedger;
use std::alloc::Global;
use std::marker::Model;
use std::sync::ledger::Ledger;
use steps::Steps;
use view_counts::ViewCounts;
use view_members::Members;

/// A room: its state, its places, and its clients. After it answered out of memory it answers it for good.
#[derive(Drop)]
pub struct Room {
    spent: bool,
    parts: Parts,
}

impl Model for Room {
    ghost use Rattle.room_core.specs.Values.{Held, room_of};
    ghost use Rattle.room_core.specs.Order.{InOrder};

    ghost Value = { Held };

    ghost view = { λ r. record { room = room_of r.parts; spent = r.spent } };

    ghost invariant = { λ r. InOrder r.parts r.spent };
}

impl Room {
    /// The state of its rows.
    pub fn state(&self) -> &LiveState
        ensures state { result.now.table.state ≡ self.now.room.state }
        ensures schema { schema_of result.now ≡ self.now.room.schema }
    {
        &self.parts.live
    }

    /// How far a session is; `None` where there is no such session.
    pub fn stage_of(&self, session: Id) -> Option<Stage>
        ensures { result ≡ stage_of self.now.room.sessions session }
    {
        self.parts.stage_of(session)
    }

    /// How many of its sessions are live.
    pub fn live_count(&self) -> u32
        ensures { result ≡ live_count self.now.room.sessions }
    {
        let live = live_among(self.parts.clients.as_slice());
        u32::try_from(live).unwrap_or(self.max())
    }

    /// Whether an event may happen now: then `step` takes it.
    pub fn takes(&self, event: &RoomEvent) -> bool
        ensures { result ≡ may_happen self.now.room event.now }
    {
        match event {
            RoomEvent::Reserve(session, lapse) => is_moment(*lapse) && may_reserve(self, *session),
            RoomEvent::Enter(_, _, _) | RoomEvent::Tick => true,
            RoomEvent::Frame(session, _) => self.is_connected(*session),
            RoomEvent::Lost(session, now) => is_moment(*now) && self.is_connected(*session),
            RoomEvent::Moment(now) => is_moment(*now),
            RoomEvent::Act(act) => act.is_within_limits(),
        }
    }

    // A session has a connection.
    fn is_connected(&self, session: Id) -> bool
        ensures { result ≡ is_connected_in self.now.room session }
    {
        match self.stage_of(session) {
            Some(stage) => has_connection(stage),
            None => false,
        }
    }
}

impl RoomLike for Room {
    ghost use Rattle.room_model.specs.Room.{room_step};
    ghost use Rattle.room_core.specs.Costs.{step_cost};
    ghost use Rattle.room_laws.specs.Ordered.{Ordered};
    ghost use Rattle.room_laws.proofs.Ordering.{new_ordered, step_ordered, step_tells, place_taken, step_names, step_quiet, kept_named, places_within};

    ghost room = { λ h. h.room };

    ghost is_spent = { λ h. h.spent };

    ghost handled = { room_step };

    ghost costs = { step_cost };

    ghost Holds = { Ordered };

    ghost begins = { new_ordered };

    ghost goes_on = { step_ordered };

    ghost tells = { step_tells };

    ghost seats = { place_taken };

    ghost names = { step_names };

    ghost keepers = { kept_named };

    ghost quiet = { step_quiet };

    ghost within = { places_within };

    fn make(
        alloc: Global,
        schema: &Schema,
        def: &RoomDef,
        criteria: &Texts,
    ) -> Result<Room, Memory> {
        let parts = Parts {
            alloc,
            def: def.copy(alloc)?,
            criteria: copy_texts(alloc, criteria)?,
            none: Members::new(alloc)?,
            shared: ViewCounts::new(alloc, schema)?,
            live: LiveState::new(alloc, schema.copy()?)?,
            places: SeatLedger::new(alloc, def.max)?,
            clients: Vec::new(alloc),
        };
        parts.live.know_rows();
        let spent = false;
        Ok(Room { parts, spent })
    }

    fn step<L: Ledger>(
        &mut self,
        event: &RoomEvent,
        steps: &mut Steps<L>,
    ) -> Result<RoomOuts, Memory> {
        know_event(event);
        if self.spent {
            return Err(Memory);
        }
        let outcome = handle(&mut self.parts, event, steps);
        self.spent = outcome.is_err();
        outcome
    }

    fn locked(&self) -> bool {
        self.parts.places.locked()
    }

    fn in_use(&self) -> u32 {
        self.parts.places.in_use()
    }

    fn max(&self) -> u32 {
        self.parts.places.max()
    }

    fn has_session(&self, session: Id) -> bool {
        self.parts.has_session(session)
    }

    fn kept_by(&self, token: Id) -> Option<Id> {
        self.parts.places.kept_by(token)
    }

    fn next_lapse(&self) -> Option<u64> {
        self.parts.places.next_lapse()
    }
}

// The step of a room. What an `Err` leaves is in order, and no step is made from it.
fn handle<L: Ledger>(
    parts: &mut Parts,
    event: &RoomEvent,
    steps: &mut Steps<L>,
) -> Result<RoomOuts, Memory>
    requires stands { RoomStands parts.old }
    requires order { Ordered (room_of parts.old) }
    requires happen { IsTrue (may_happen (room_of parts.old) event.now) }
    ensures outs { IfOk result (λ outs. outs ≡ (room_step (room_of parts.old) event.now).1) }
    ensures room { OnOk result (room_of parts.new ≡ (room_step (room_of parts.old) event.now).0) }
    ensures stands { OnOk result (RoomStands parts.new) }
    ensures order { OnErr result (Ordered (room_of parts.new)) }
    ensures cost { steps.new ≤ steps.old + step_cost (room_of parts.old) event.now }
{
    match event {
        RoomEvent::Reserve(session, lapse) => {
            parts.reserve(*session, *lapse)?;
            Ok(Seq::new(parts.alloc))
        }
        RoomEvent::Enter(session, token, fresh) => parts.enter(*session, *token, *fresh),
        RoomEvent::Frame(session, bytes) => parts.frame(*session, bytes),
        RoomEvent::Lost(session, now) => parts.lose(*session, *now),
        RoomEvent::Moment(now) => parts.lapse(*now),
        RoomEvent::Act(act) => handle_act(parts, act, steps),
        RoomEvent::Tick => parts.tick(steps),
    }
}

// An act.
fn handle_act<L: Ledger>(
    parts: &mut Parts,
    act: &Act,
    steps: &mut Steps<L>,
) -> Result<RoomOuts, Memory>
    requires stands { RoomStands parts.old }
    requires order { Ordered (room_of parts.old) }
    requires happen { IsTrue (may_act act.now) }
    ensures outs { IfOk result (λ outs. outs ≡ (after_act (room_of parts.old) act.now).1) }
    ensures room { OnOk result (room_of parts.new ≡ (after_act (room_of parts.old) act.now).0) }
    ensures stands { OnOk result (RoomStands parts.new) }
    ensures order { OnErr result (Ordered (room_of parts.new)) }
    ensures cost { steps.new ≤ steps.old + act_cost (room_of parts.old) act.now }
{
    match act {
        Act::State(command) => parts.command(command),
        Act::ViewAdd(session, pair) => parts.edit_view(ViewEdit::Show, *session, *pair, steps),
        Act::ViewDel(session, pair) => parts.edit_view(ViewEdit::Hide, *session, *pair, steps),
        Act::Kick(session, code) => parts.kick(*session, *code),
        Act::Lock => Ok(parts.lock(true)),
        Act::Unlock => Ok(parts.lock(false)),
        Act::Keep(session, ms) => parts.set_keep(*session, *ms),
        Act::Send(session, kind, payload) => {
            let frame = message_frame(parts.alloc, kind, payload)?;
            parts.send(*session, frame)
        }
        Act::Raw(session, kind, payload) => {
            let frame = raw_frame(parts.alloc, kind, payload)?;
            parts.send(*session, frame)
        }
        Act::ToAll(kind, payload) => {
            let frame = message_frame(parts.alloc, kind, payload)?;
            parts.send_all(&frame)
        }
    }
}
