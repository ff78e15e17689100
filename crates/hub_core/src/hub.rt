//! The hub.
ghost use Rattle.std.specs.Prelude.{◌≡◌, ◌+◌, ◌≤◌, true, false, Some, is_some, option_map, slice_get, IfOk, IfSome, IsErr, IsTrue, OnErr, OnOk};
ghost use Rattle.hub_model.specs.HubStep.{hub_step};
ghost use Rattle.hub_model.specs.HubValues.{new_hub, room_of};
ghost use Rattle.schema_model.specs.Ids.{is_id};
ghost use Rattle.hub_model.specs.Kinds.{event_has_kept_kind};
ghost use Rattle.hub_core.specs.Costs.{hub_cost};
ghost use Rattle.hub_core.specs.Held.{are_hub_defs, is_worded, may_take};
ghost use Rattle.hub_core.specs.Hubs.{Stands, hub_of};
ghost use Rattle.hub_core.specs.Takes.{Takes, rules_of};

use crate::parts::Parts;
use hub_model::{HubEvent, HubOuts};
use lists::{Memory, Seq};
use room_like::{RoomLike, know_act};
use room_model::Defs;
use schema_model::{Id, Schema, is_id};
use std::alloc::Global;
use std::marker::Model;
use std::sync::ledger::Ledger;
use steps::Steps;

/// A hub of rooms, with its connections and its moment. After it answered out of memory it answers it for good.
#[derive(Drop)]
pub struct Hub<R: RoomLike> {
    parts: Parts<R>,
    spent: bool,
}

impl<R: RoomLike> Model for Hub<R> {
    ghost use Rattle.std.specs.Prelude.{◌≡◌, false};
    ghost use Rattle.hub_core.specs.Costs.{hub_cost};
    ghost use Rattle.hub_core.specs.Held.{Held};
    ghost use Rattle.hub_core.specs.Hubs.{Stands, hub_of};

    ghost Value = { Held };

    ghost view = { λ h. record { hub = hub_of R.room h.parts; spent = h.spent } };

    ghost invariant = { λ h. h.spent ≡ false → Stands R.room R.Holds h.parts };
}

impl<R: RoomLike> Hub<R> {
    /// A hub without rooms, at moment 0. Whether definitions will do is what `are_hub_defs` says, and whether an id will do
    /// what `is_id` does.
    pub fn new(alloc: Global, schema: Schema, process: Id, defs: Defs) -> Result<Hub<R>, Memory>
        requires defs { IsTrue (are_hub_defs defs) }
        requires process { IsTrue (is_id process) }
        ensures { IfOk result (λ h. h ≡ record { hub = new_hub schema process defs; spent = false }) }
    {
        let parts = Parts::new(alloc, schema, process, defs)?;
        Ok(Hub {
            parts,
            spent: false,
        })
    }

    /// Whether an event may come: then `step` takes it. The ids that come with a request and with an opening were drawn of the
    /// characters of ids, and an act is within the limits.
    pub fn takes(&self, event: &HubEvent) -> bool
        ensures { result ≡ may_take event.now }
    {
        match event {
            HubEvent::Ask { room, session, .. } => is_id(*room) && is_id(*session),
            HubEvent::Opening { fresh, .. } => is_id(*fresh),
            HubEvent::Act { act, .. } => act.is_within_limits(),
            _ => true,
        }
    }

    /// The hub's step, and what it gives. Unless the hub is spent, it is an event that the hub takes; any event may come to a
    /// spent one. Where it answers `Memory` the hub is spent. It takes no more steps than its rooms' steps are said to cost,
    /// also where it answers `Memory`.
    pub fn take<L: Ledger>(
        &mut self,
        event: HubEvent,
        steps: &mut Steps<L>,
    ) -> Result<HubOuts, Memory>
        requires { self.old.spent ≡ false → IsTrue (may_take event) }
        ensures outs { IfOk result (λ outs. outs ≡ (hub_step (rules_of R.handled) self.old.hub event).1) }
        ensures after { OnOk result (self.new ≡ record { hub = (hub_step (rules_of R.handled) self.old.hub event).0; spent = false }) }
        ensures spent { OnErr result (self.new.spent ≡ true) }
        ensures for_good { self.old.spent ≡ true → IsErr result }
        ensures cost { steps.new ≤ steps.old + hub_cost R.costs (rules_of R.handled) self.old.hub event }
        ensures worded { IsTrue (is_worded event) }
        ensures kind { IsTrue (event_has_kept_kind event) }
    {
        know_event(&event);
        if self.spent {
            return Err(Memory);
        }
        self.spent = true;
        let mut outs = Seq::new(self.parts.alloc);
        self.parts.handle(event, &mut outs, steps)?;
        self.spent = false;
        Ok(outs)
    }

    /// The same of an event that is kept: a copy of it is taken.
    pub fn step<L: Ledger>(
        &mut self,
        event: &HubEvent,
        steps: &mut Steps<L>,
    ) -> Result<HubOuts, Memory>
        requires { self.old.spent ≡ false → IsTrue (may_take event.now) }
        ensures outs { IfOk result (λ outs. outs ≡ (hub_step (rules_of R.handled) self.old.hub event.now).1) }
        ensures after { OnOk result (self.new ≡ record { hub = (hub_step (rules_of R.handled) self.old.hub event.now).0; spent = false }) }
        ensures spent { OnErr result (self.new.spent ≡ true) }
        ensures for_good { self.old.spent ≡ true → IsErr result }
        ensures cost { steps.new ≤ steps.old + hub_cost R.costs (rules_of R.handled) self.old.hub event.now }
        ensures worded { IsTrue (is_worded event.now) }
        ensures kind { IsTrue (event_has_kept_kind event.now) }
    {
        know_event(event);
        match event.copy(self.parts.alloc) {
            Ok(event) => self.take(event, steps),
            Err(Memory) => {
                self.spent = true;
                Err(Memory)
            }
        }
    }

    /// The room of an id.
    pub fn room(&self, id: Id) -> Option<&R>
        ensures there { is_some result ≡ is_some (room_of self.now.hub id) }
        ensures room { IfSome result (λ r. option_map (λ r. r.room) (room_of self.now.hub id) ≡ Some (R.room r.now)) }
    {
        match self.parts.registry.rooms.find(id) {
            Some(entry) => Some(&entry.room),
            None => None,
        }
    }

    /// The id of the room of a place, in the order of creation. It passes over the rooms before it.
    pub fn nth_room(&self, n: u32) -> Option<Id>
        ensures { result ≡ option_map (λ r. r.id) (slice_get self.now.hub.rooms n) }
    {
        match self.parts.registry.rooms.nth(n) {
            Some(entry) => Some(entry.id),
            None => None,
        }
    }

    /// The room of a place, in the order of creation. It passes over the rooms before it.
    pub fn room_at(&self, n: u32) -> Option<&R>
        ensures there { is_some result ≡ is_some (slice_get self.now.hub.rooms n) }
        ensures room { IfSome result (λ r. option_map (λ r. r.room) (slice_get self.now.hub.rooms n) ≡ Some (R.room r.now)) }
    {
        match self.parts.registry.rooms.nth(n) {
            Some(entry) => Some(&entry.room),
            None => None,
        }
    }

    /// The moment, in milliseconds.
    pub fn now(&self) -> u64
        ensures { result ≡ self.now.hub.now }
    {
        self.parts.moment
    }
}

impl<R: RoomLike> Parts<R> {
    // The step of the parts, for each event.
    fn handle<L: Ledger>(
        &mut self,
        event: HubEvent,
        outs: &mut HubOuts,
        steps: &mut Steps<L>,
    ) -> Result<(), Memory>
        requires stands { Stands R.room R.Holds self.old }
        requires may { IsTrue (may_take event) }
        ensures takes { OnOk result (Takes R.room R.Holds R.handled event self.old self.new outs.old outs.new) }
        ensures cost { steps.new ≤ steps.old + hub_cost R.costs (rules_of R.handled) (hub_of R.room self.old) event }
    {
        match event {
            HubEvent::At(now) => self.moment(now, outs, steps),
            HubEvent::Ask {
                conn,
                target,
                body,
                room,
                session,
            } => self.ask(
                conn,
                target.as_str(),
                body.as_slice(),
                room,
                session,
                outs,
                steps,
            ),
            HubEvent::Bad { conn } => self.bad(conn, outs),
            HubEvent::Opening {
                conn,
                target,
                fresh,
            } => self.opening(conn, target.as_str(), fresh, outs, steps),
            HubEvent::Frame { conn, bytes } => self.frame(conn, bytes, outs, steps),
            HubEvent::Lost { conn } => self.lost(conn, outs, steps),
            HubEvent::Act { room, act } => self.act(room, act, outs, steps),
            HubEvent::Tick { room } => self.tick(room, outs, steps),
        }
    }
}

// The texts that an event's act puts are UTF-8, and its message is about a name in UTF-8 or a number of 32 bits. It does
// nothing else than to say so.
fn know_event(event: &HubEvent)
    ensures worded { IsTrue (is_worded event.now) }
    ensures kind { IsTrue (event_has_kept_kind event.now) }
{
    if let HubEvent::Act { act, .. } = event {
        know_act(act);
    }
}
