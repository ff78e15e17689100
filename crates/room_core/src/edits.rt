//! What a room's owner does: commands, view edits, keep times, the lock.
ghost use Rattle.std.specs.Prelude.{◌≡◌, ◌+◌, ◌≤◌, [], true, IfOk, OnErr, OnOk};
ghost use Rattle.state_model.specs.Commands.{do_command};
ghost use Rattle.instance_table.specs.Behind.{places_behind};
ghost use Rattle.room_model.specs.Ledger.{set_locked};
ghost use Rattle.room_model.specs.Limits.{longest_time};
ghost use Rattle.room_model.specs.Room.{after_answer, made_outs, on_session, with_seats};
ghost use Rattle.room_model.specs.Sessions.{keep_set};
ghost use Rattle.room_laws.specs.Ordered.{Ordered};
ghost use Rattle.live_state.specs.Live.{rows_of, schema_of};
ghost use Rattle.view_edits.specs.There.{are_there};
ghost use Rattle.room_core.specs.Clients.{client_tells};
ghost use Rattle.room_core.specs.Costs.{edit_cost};
ghost use Rattle.room_core.specs.Stands.{RoomStands};
ghost use Rattle.room_core.specs.Steps.{AnswerTells, Edited, EditTells, FaultTells, refused_outs, Refuses, view_edited};
ghost use Rattle.room_core.specs.Values.{room_of, session_of_client};

use crate::client::Client;
use crate::entering::one_out;
use crate::parts::Parts;
use crate::view_edit::ViewEdit;
use lists::Seq;
use live_state::LiveState;
use room_model::{Refusal, RoomOut, RoomOuts, Stage};
use schema_model::{Id, Memory, Pair, RefNum};
use state_model::{Command, TableFault};
use std::alloc::Global;
use std::sync::ledger::Ledger;
use steps::Steps;
use view_edits::{EditFault, hide, show};

impl Parts {
    /// A command.
    pub fn command(&mut self, command: &Command) -> Result<RoomOuts, Memory>
        requires stands { RoomStands self.old }
        requires order { Ordered (room_of self.old) }
        ensures outs { IfOk result (λ outs. outs ≡ (after_answer (room_of self.old) (do_command (schema_of self.old.live) self.old.live.table.state command.now)).1) }
        ensures room { OnOk result (room_of self.new ≡ (after_answer (room_of self.old) (do_command (schema_of self.old.live) self.old.live.table.state command.now)).0) }
        ensures stands { OnOk result (RoomStands self.new) }
        ensures order { OnErr result (Ordered (room_of self.new)) }
    {
        let alloc = self.alloc;
        // The rows so far are sound.
        self.live.know_rows();
        let answer = self.live.apply(command);
        answered(alloc, answer)
    }

    /// A row and what is behind it comes into the view of a session, or goes from it.
    pub fn edit_view<L: Ledger>(
        &mut self,
        edit: ViewEdit,
        session: Id,
        pair: Pair,
        steps: &mut Steps<L>,
    ) -> Result<RoomOuts, Memory>
        requires stands { RoomStands self.old }
        requires order { Ordered (room_of self.old) }
        ensures outs { IfOk result (λ outs. outs ≡ (on_session (room_of self.old) session (view_edited edit (schema_of self.old.live) (rows_of self.old.live) pair)).1) }
        ensures room { OnOk result (room_of self.new ≡ (on_session (room_of self.old) session (view_edited edit (schema_of self.old.live) (rows_of self.old.live) pair)).0) }
        ensures stands { OnOk result (RoomStands self.new) }
        ensures order { OnErr result (Ordered (room_of self.new)) }
        ensures cost { steps.new ≤ steps.old + edit_cost (room_of self.old) pair }
    {
        let alloc = self.alloc;
        let Some(at) = self.place_of(session) else {
            return refused(alloc, Some(Refusal::NoSession));
        };
        let refusal = edit_one(&self.live, &mut self.clients[at], edit, pair, steps)?;
        refused(alloc, refusal)
    }

    /// The seat of a session is kept for so many ms at its next drop.
    pub fn set_keep(&mut self, session: Id, ms: u64) -> Result<RoomOuts, Memory>
        requires stands { RoomStands self.old }
        requires order { Ordered (room_of self.old) }
        requires within { ms ≤ longest_time }
        ensures outs { IfOk result (λ outs. outs ≡ (on_session (room_of self.old) session (keep_set ms)).1) }
        ensures room { OnOk result (room_of self.new ≡ (on_session (room_of self.old) session (keep_set ms)).0) }
        ensures stands { OnOk result (RoomStands self.new) }
        ensures order { OnErr result (Ordered (room_of self.new)) }
    {
        let alloc = self.alloc;
        let Some(at) = self.place_of(session) else {
            return refused(alloc, Some(Refusal::NoSession));
        };
        let refusal = keep_one(&mut self.clients[at], ms as u32);
        refused(alloc, refusal)
    }

    /// An act locks the room, or opens it again.
    pub fn lock(&mut self, on: bool) -> RoomOuts
        requires stands { RoomStands self.old }
        ensures outs { result ≡ [] }
        ensures room { room_of self.new ≡ with_seats (room_of self.old) (set_locked self.old.places on) }
        ensures stands { RoomStands self.new }
    {
        self.places.set_locked(on);
        Seq::new(self.alloc)
    }
}

// What the answer to a command gives.
fn answered(alloc: Global, answer: Result<Option<RefNum>, TableFault>) -> Result<RoomOuts, Memory>
    ensures { AnswerTells answer result }
{
    match answer {
        Ok(made) => made_out(alloc, made),
        Err(fault) => refused_by(alloc, fault),
    }
}

// The number of a row that was made.
fn made_out(alloc: Global, made: Option<RefNum>) -> Result<RoomOuts, Memory>
    ensures { IfOk result (λ outs. outs ≡ made_outs made) }
{
    match made {
        Some(number) => one_out(alloc, RoomOut::Made(number)),
        None => Ok(Seq::new(alloc)),
    }
}

// The refusal of a command; out of memory is none.
fn refused_by(alloc: Global, fault: TableFault) -> Result<RoomOuts, Memory>
    ensures { FaultTells fault result }
{
    match fault {
        TableFault::Memory => Err(Memory),
        fault => one_out(alloc, RoomOut::Refused(Refusal::Table(fault))),
    }
}

/// The refusal of an act, where there is one.
pub fn refused(alloc: Global, refusal: Option<Refusal>) -> Result<RoomOuts, Memory>
    ensures { IfOk result (λ outs. outs ≡ refused_outs refusal) }
{
    match refusal {
        Some(refusal) => one_out(alloc, RoomOut::Refused(refusal)),
        None => Ok(Seq::new(alloc)),
    }
}

// An edit of the view of one client, or why it is refused.
fn edit_one<L: Ledger>(
    live: &LiveState,
    client: &mut Client,
    edit: ViewEdit,
    pair: Pair,
    steps: &mut Steps<L>,
) -> Result<Option<Refusal>, Memory>
    requires { are_there (rows_of live.now) client.old.members.now ≡ true }
    ensures tells { IfOk result (EditTells (view_edited edit (schema_of live.now) (rows_of live.now) pair (session_of_client client.old)) client.old client.new) }
    ensures edited { OnOk result (Edited client.old client.new) }
    ensures told { client_tells client.new ≡ client_tells client.old }
    ensures there { OnOk result (are_there (rows_of live.now) client.new.members.now ≡ true) }
    ensures cost { steps.new ≤ steps.old + places_behind (schema_of live.now) (rows_of live.now) pair.who pair.tag }
{
    if client.stage == Stage::Reserved {
        return Ok(Some(Refusal::NotHere));
    }
    match edit {
        ViewEdit::Show => refusal_of(show(live, &mut client.members, pair, steps)),
        ViewEdit::Hide => refusal_of(hide(live, &mut client.members, pair, steps)),
    }
}

// What the answer to an edit refuses.
fn refusal_of(answer: Result<(), EditFault>) -> Result<Option<Refusal>, Memory>
    ensures { Refuses answer result }
{
    match answer {
        Ok(()) => Ok(None),
        Err(EditFault::NoRef) => Ok(Some(Refusal::Table(TableFault::NoRef))),
        Err(EditFault::ViewFull) => Ok(Some(Refusal::ViewFull)),
        Err(EditFault::Memory) => Err(Memory),
    }
}

// The seat of a client is kept for so many ms, or that is refused.
fn keep_one(client: &mut Client, ms: u32) -> Option<Refusal>
    ensures tells { EditTells (keep_set ms (session_of_client client.old)) client.old client.new result }
    ensures edited { Edited client.old client.new }
    ensures members { client.new.members ≡ client.old.members }
{
    if client.stage == Stage::Reserved {
        return Some(Refusal::NotHere);
    }
    client.keep = ms;
    None
}
