//! A room as a hub keeps it.
ghost use Rattle.std.specs.Prelude.{◌≡◌, ◌+◌, ◌≤◌, false, IfOk, IsTrue, OnOk};
ghost use Rattle.room_laws.specs.Places.{may_happen};
ghost use Rattle.hub_core.specs.Statuses.{Changes, IsChange};
ghost use Rattle.hub_core.specs.RoomEntry.{Kept};

use crate::status::{Change, RoomStatus, Turn};
use lists::Memory;
use room_like::{RoomLike, ends_any, is_quiet};
use room_model::{RoomEvent, Texts};
use schema_model::Id;
use std::alloc::Global;
use std::marker::Model;
use std::sync::ledger::Ledger;
use steps::Steps;

/// A room of a hub: the criteria of its creation, its number in the order of creation, its definition by position, its id,
/// and itself; and what it showed of its places when they were looked at last.
#[derive(Drop)]
pub struct RoomEntry<R> {
    pub serial: u64,
    pub def: u32,
    pub id: Id,
    pub status: RoomStatus,
    pub room: R,
    pub criteria: Texts,
}

/// A room of a hub in memory of its own, so that none is moved when others come and go.
#[derive(Drop)]
pub struct Boxed<R> {
    inside: Box<RoomEntry<R>>,
}

impl<R> Model for Boxed<R> {
    ghost use Rattle.hub_core.specs.declared.entry.RoomEntry.{RoomEntry};

    ghost Value = { RoomEntry R };

    ghost view = { λ b. b.inside.value };
}

impl<R> Boxed<R> {
    /// Moves a room into memory of its own.
    pub fn new(alloc: Global, entry: RoomEntry<R>) -> Result<Boxed<R>, Memory>
    where
        R: Drop,
        ensures { IfOk result (λ b. b ≡ entry) }
    {
        let inside = Box::new(alloc, entry)?;
        Ok(Boxed { inside })
    }

    /// The room.
    pub fn get(&self) -> &RoomEntry<R>
        ensures { result.now ≡ self.now }
    {
        &self.inside
    }

    /// The id of the room.
    pub fn id(&self) -> Id
        ensures { result ≡ self.now.id }
    {
        self.inside.id
    }
}

impl<R: RoomLike> RoomEntry<R> {
    // Looks at the room's places anew.
    fn look(&mut self) -> Change
        ensures kept { Kept self.old self.new }
        ensures room { self.new.room ≡ self.old.room }
        ensures change { IsChange R.room self.old self.new result }
    {
        let change = Change {
            was: self.status,
            now: RoomStatus::of(&self.room),
        };
        self.status = change.now;
        change
    }
}

impl<R: RoomLike> Boxed<R> {
    /// The step of the room. What it shows of its places is looked at anew unless the event is about none and ended nothing.
    pub fn step<L: Ledger>(
        &mut self,
        event: &RoomEvent,
        steps: &mut Steps<L>,
    ) -> Result<Turn, Memory>
        requires { R.is_spent self.old.room ≡ false → IsTrue (may_happen (R.room self.old.room) event.now) }
        ensures outs { IfOk result (λ turn. turn.outs ≡ (R.handled (R.room self.old.room) event.now).1) }
        ensures same { Kept self.old self.new }
        ensures after { OnOk result (R.room self.new.room ≡ (R.handled (R.room self.old.room) event.now).0) }
        ensures fresh { OnOk result (R.is_spent self.new.room ≡ false) }
        ensures change { IfOk result (λ turn. Changes R.room event.now turn.outs self.old self.new turn.change) }
        ensures cost { steps.new ≤ steps.old + R.costs (R.room self.old.room) event.now }
    {
        let entry = &mut *self.inside;
        let outs = entry.room.step(event, steps)?;
        if is_quiet(event) && !ends_any(outs.as_slice()) {
            return Ok(Turn { outs, change: None });
        }
        let change = Some(entry.look());
        Ok(Turn { outs, change })
    }
}
