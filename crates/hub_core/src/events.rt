//! Events of a connection, and of a room.
ghost use Rattle.std.specs.Prelude.{◌≡◌, ◌+◌, ◌≤◌, IsTrue, OnOk};
ghost use Rattle.room_model.specs.Acts.{may_act};
ghost use Rattle.hub_model.specs.declared.event.HubEvent.TheVariants as event;
ghost use Rattle.hub_core.specs.Costs.{hub_cost};
ghost use Rattle.hub_core.specs.Hubs.{Stands, hub_of};
ghost use Rattle.hub_core.specs.Takes.{Takes, rules_of};

use crate::parts::Parts;
use frame_model::codes::PROTOCOL_ERROR;
use hub_model::{HubOut, HubOuts};
use lists::Memory;
use room_like::RoomLike;
use room_model::{Act, Refusal, RoomEvent};
use schema_model::{Bytes, ConnNum, Id};
use std::sync::ledger::Ledger;
use steps::Steps;

impl<R: RoomLike> Parts<R> {
    /// A frame of a connection.
    pub fn frame<L: Ledger>(
        &mut self,
        conn: ConnNum,
        bytes: Bytes,
        outs: &mut HubOuts,
        steps: &mut Steps<L>,
    ) -> Result<(), Memory>
        requires { Stands R.room R.Holds self.old }
        ensures takes { OnOk result (Takes R.room R.Holds R.handled (event.Frame conn bytes) self.old self.new outs.old outs.new) }
        ensures cost { steps.new ≤ steps.old + hub_cost R.costs (rules_of R.handled) (hub_of R.room self.old) (event.Frame conn bytes) }
    {
        self.registry.rooms.know();
        let Some(linked) = self.conns.get(conn) else {
            return outs.push(HubOut::Refused(Refusal::NoConn));
        };
        let event = RoomEvent::Frame(linked.session, bytes);
        self.handle_in(linked.room, Some(linked), &event, outs, steps)
    }

    /// A connection is lost.
    pub fn lost<L: Ledger>(
        &mut self,
        conn: ConnNum,
        outs: &mut HubOuts,
        steps: &mut Steps<L>,
    ) -> Result<(), Memory>
        requires { Stands R.room R.Holds self.old }
        ensures takes { OnOk result (Takes R.room R.Holds R.handled (event.Lost conn) self.old self.new outs.old outs.new) }
        ensures cost { steps.new ≤ steps.old + hub_cost R.costs (rules_of R.handled) (hub_of R.room self.old) (event.Lost conn) }
    {
        self.registry.rooms.know();
        let Some(linked) = self.conns.get(conn) else {
            return outs.push(HubOut::Refused(Refusal::NoConn));
        };
        let event = RoomEvent::Lost(linked.session, self.moment);
        self.handle_in(linked.room, Some(linked), &event, outs, steps)
    }

    /// An act of a room.
    pub fn act<L: Ledger>(
        &mut self,
        room: Id,
        act: Act,
        outs: &mut HubOuts,
        steps: &mut Steps<L>,
    ) -> Result<(), Memory>
        requires stands { Stands R.room R.Holds self.old }
        requires may { IsTrue (may_act act) }
        ensures takes { OnOk result (Takes R.room R.Holds R.handled (event.Act room act) self.old self.new outs.old outs.new) }
        ensures cost { steps.new ≤ steps.old + hub_cost R.costs (rules_of R.handled) (hub_of R.room self.old) (event.Act room act) }
    {
        self.handle_in(room, None, &RoomEvent::Act(act), outs, steps)
    }

    /// A tick of a room.
    pub fn tick<L: Ledger>(
        &mut self,
        room: Id,
        outs: &mut HubOuts,
        steps: &mut Steps<L>,
    ) -> Result<(), Memory>
        requires { Stands R.room R.Holds self.old }
        ensures takes { OnOk result (Takes R.room R.Holds R.handled (event.Tick room) self.old self.new outs.old outs.new) }
        ensures cost { steps.new ≤ steps.old + hub_cost R.costs (rules_of R.handled) (hub_of R.room self.old) (event.Tick room) }
    {
        self.handle_in(room, None, &RoomEvent::Tick, outs, steps)
    }

    /// A plain connection gave what is no request.
    pub fn bad(&mut self, conn: ConnNum, outs: &mut HubOuts) -> Result<(), Memory>
        requires { Stands R.room R.Holds self.old }
        ensures { OnOk result (Takes R.room R.Holds R.handled (event.Bad conn) self.old self.new outs.old outs.new) }
    {
        self.registry.rooms.know();
        outs.push(HubOut::Close(conn, PROTOCOL_ERROR))
    }
}
