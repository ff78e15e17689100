//! Requests for a seat.
ghost use Rattle.std.specs.Prelude.{◌≡◌, ◌+◌, ◌≤◌, IsTrue, OnOk};
ghost use Rattle.hub_model.specs.declared.event.HubEvent.TheVariants as event;
ghost use Rattle.schema_model.specs.Ids.{is_id};
ghost use Rattle.hub_core.specs.Costs.{hub_cost};
ghost use Rattle.hub_core.specs.Hubs.{Stands, hub_of};
ghost use Rattle.hub_core.specs.Takes.{Takes, rules_of};

use crate::outcome::Outcome;
use crate::parts::Parts;
use crate::refuse::in_use_text;
use crate::seats::refuse_request;
use frame_model::codes::UNHANDLED;
use hub_model::HubOuts;
use lists::Memory;
use room_like::RoomLike;
use schema_model::{ConnNum, Id};
use std::sync::ledger::Ledger;
use steps::Steps;

impl<R: RoomLike> Parts<R> {
    /// A request of a plain connection, with the ids that were drawn for a room and a session.
    pub fn ask<L: Ledger>(
        &mut self,
        conn: ConnNum,
        target: &str,
        body: &[u8],
        room: Id,
        session: Id,
        outs: &mut HubOuts,
        steps: &mut Steps<L>,
    ) -> Result<(), Memory>
        requires stands { Stands R.room R.Holds self.old }
        requires room { IsTrue (is_id room) }
        requires session { IsTrue (is_id session) }
        ensures takes { OnOk result (Takes R.room R.Holds R.handled (event.Ask conn target.now body.now room session) self.old self.new outs.old outs.new) }
        ensures cost { steps.new ≤ steps.old + hub_cost R.costs (rules_of R.handled) (hub_of R.room self.old) (event.Ask conn target.now body.now room session) }
    {
        self.registry.rooms.know();
        let outcome = self.outcome(target, body)?;
        if let Some(id) = self.used(&outcome, room, session) {
            let text = in_use_text(self.alloc, &id)?;
            return refuse_request(self.alloc, conn, u32::from(UNHANDLED), text.as_str(), outs);
        }
        match outcome {
            Outcome::Refuse(code, text) => refuse_request(
                self.alloc,
                conn,
                code,
                text.as_str(),
                outs,
            ),
            Outcome::Join(serial) => {
                let at = self.registry.rooms.reference(serial);
                self.reserve(at, conn, session, outs, steps)
            }
            Outcome::Make(def, criteria) => {
                let at = self.create(def, criteria, room, outs)?;
                self.reserve(at, conn, session, outs, steps)
            }
            Outcome::Return(serial, kept) => {
                let at = self.registry.rooms.reference(serial);
                self.reply(at, conn, kept, outs)
            }
        }
    }
}
