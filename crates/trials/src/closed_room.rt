//! Another room: one that lets nobody in. It takes no reservation, and whoever opens a seat has none.
ghost use Rattle.std.specs.Prelude.{◌≡◌, IfOk};
ghost use Rattle.trials.specs.ClosedRooms.{closed_outs};

use lists::{Memory, Seq};
use room_like::{RoomLike, know_event};
use room_model::{RoomDef, RoomEvent, RoomOut, RoomOuts, Texts, copy_texts};
use schema_model::{Id, Schema};
use std::alloc::Global;
use std::sync::ledger::Ledger;
use steps::Steps;

/// A room that lets nobody in.
#[derive(Drop)]
pub struct ClosedRoom {
    alloc: Global,
    schema: Schema,
    def: RoomDef,
    criteria: Texts,
    spent: bool,
}

impl RoomLike for ClosedRoom {
    ghost use Rattle.room_model.specs.Room.{new_room};
    ghost use Rattle.trials.specs.ClosedRooms.{IsEmpty, closed_step};
    ghost use Rattle.trials.specs.ClosedLaws.{begins, goes_on, tells, seats, names, keepers, quiet, within};

    ghost room = { λ c. new_room c.schema c.def c.criteria };

    ghost is_spent = { λ c. c.spent };

    ghost handled = { closed_step };

    ghost costs = { λ c e. 0 };

    ghost Holds = { IsEmpty };

    ghost begins = { begins };

    ghost goes_on = { goes_on };

    ghost tells = { tells };

    ghost seats = { seats };

    ghost names = { names };

    ghost keepers = { keepers };

    ghost quiet = { quiet };

    ghost within = { within };

    fn make(
        alloc: Global,
        schema: &Schema,
        def: &RoomDef,
        criteria: &Texts,
    ) -> Result<ClosedRoom, Memory> {
        Ok(ClosedRoom {
            alloc,
            schema: schema.copy()?,
            def: def.copy(alloc)?,
            criteria: copy_texts(alloc, criteria)?,
            spent: false,
        })
    }

    fn step<L: Ledger>(
        &mut self,
        event: &RoomEvent,
        steps: &mut Steps<L>,
    ) -> Result<RoomOuts, Memory> {
        know_event(event);
        if self.spent {
            return Err(Memory);
        }
        let outcome = answer(self.alloc, event);
        self.spent = outcome.is_err();
        outcome
    }

    fn locked(&self) -> bool {
        false
    }

    fn in_use(&self) -> u32 {
        0
    }

    fn max(&self) -> u32 {
        self.def.max
    }

    fn has_session(&self, session: Id) -> bool {
        false
    }

    fn kept_by(&self, token: Id) -> Option<Id> {
        None
    }

    fn next_lapse(&self) -> Option<u64> {
        None
    }
}

// What it gives.
fn answer(alloc: Global, event: &RoomEvent) -> Result<RoomOuts, Memory>
    ensures { IfOk result (λ outs. outs ≡ closed_outs event.now) }
{
    let mut outs = Seq::new(alloc);
    if let RoomEvent::Enter(session, _, _) = event {
        outs.push(RoomOut::NoSeat(*session))?;
    }
    Ok(outs)
}
