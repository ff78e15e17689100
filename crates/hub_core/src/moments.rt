//! Moments.
ghost use Rattle.std.specs.Prelude.{◌≡◌, ◌+◌, ◌≤◌, ◌++◌, ℕ, true, false, ◌==◌, max, min, List, map, filter, IfSome, IsSome, OnOk};
ghost use Rattle.std.specs.List.{list_any};
ghost use Rattle.lists.specs.Rising.{RisesFrom, find as find_by};
ghost use Rattle.hub_model.specs.declared.event.HubEvent.TheVariants as event;
ghost use Rattle.hub_model.specs.HubStep.{disposals, is_needed, last_moment};
ghost use Rattle.hub_core.specs.Costs.{hub_cost, lapse_cost};
ghost use Rattle.hub_core.specs.Hubs.{InOrder, IsNeeded, Stands, hub_of};
ghost use Rattle.hub_core.specs.Lapses.{itself};
ghost use Rattle.hub_core.specs.Lapsed.{AllLapsed, AllLeft, AreThere};
ghost use Rattle.hub_core.specs.RoomEntry.{Each, rooms_in, serial_of};
ghost use Rattle.hub_core.specs.Takes.{Takes, rules_of};

use crate::parts::Parts;
use hub_model::{HubOuts, LAST_MOMENT};
use lists::Memory;
use room_like::RoomLike;
use room_model::RoomEvent;
use std::collections::BTreeSet;
use std::sync::ledger::Ledger;
use steps::Steps;

impl<R: RoomLike> Parts<R> {
    /// A moment, in milliseconds: what has come by it lapses, room by room in the order of their creation; then the rooms are
    /// disposed of in which no place is in use any more. The hub's moment never goes back, nor past the last one.
    pub fn moment<L: Ledger>(
        &mut self,
        now: u64,
        outs: &mut HubOuts,
        steps: &mut Steps<L>,
    ) -> Result<(), Memory>
        requires { Stands R.room R.Holds self.old }
        ensures takes { OnOk result (Takes R.room R.Holds R.handled (event.At now) self.old self.new outs.old outs.new) }
        ensures cost { steps.new ≤ steps.old + hub_cost R.costs (rules_of R.handled) (hub_of R.room self.old) (event.At now) }
    {
        self.registry.rooms.know();
        self.moment = later(self.moment, now);
        let due = self.registry.lapses.due(self.alloc, self.moment)?;
        self.lapse_all(&due, outs, steps)?;
        self.dispose_all(&due, outs)
    }

    // What has come lapses in the rooms of these numbers.
    fn lapse_all<L: Ledger>(
        &mut self,
        due: &BTreeSet<u64>,
        outs: &mut HubOuts,
        steps: &mut Steps<L>,
    ) -> Result<(), Memory>
        requires order { InOrder R.room R.Holds self.old }
        requires rises { RisesFrom itself 0 due.now.keys }
        requires there { AreThere due.now.keys self.old.registry.rooms }
        requires needed { Each (IsNeeded R.room) self.old.registry.rooms }
        ensures lapsed { OnOk result (AllLapsed R.room R.Holds R.handled self.old.moment due.now.keys self.old self.new outs.old outs.new) }
        ensures cost { steps.new ≤ steps.old + lapse_cost R.room R.costs self.old.moment due.now.keys self.old.registry.rooms }
    {
        'rooms: for serial in due.iter() {
            let event = RoomEvent::Moment(self.moment);
            let at = self.registry.rooms.reference(*serial);
            self.handle_at(at, None, &event, outs, steps)?;
        }
        Ok(())
    }

    // The rooms of these numbers are disposed of where no place of them is in use.
    fn dispose_all(&mut self, due: &BTreeSet<u64>, outs: &mut HubOuts) -> Result<(), Memory>
        requires order { InOrder R.room R.Holds self.old }
        requires rises { RisesFrom itself 0 due.now.keys }
        requires there { AreThere due.now.keys self.old.registry.rooms }
        requires needed { Each (λ s. list_any (λ k. k == s.serial) due.now.keys ≡ false → IsNeeded R.room s) self.old.registry.rooms }
        ensures { OnOk result (AllLeft R.room R.Holds self.old self.new outs.old outs.new) }
    {
        'rooms: for serial in due.iter() {
            let at = self.registry.rooms.reference(*serial);
            self.registry.dispose(self.alloc, at, outs)?;
        }
        self.registry.rooms.know();
        Ok(())
    }
}

// The later of two moments, where one past the last counts as the last.
fn later(before: u64, now: u64) -> u64
    ensures { result ≡ max before (min now last_moment) }
{
    before.max(now.min(LAST_MOMENT))
}
