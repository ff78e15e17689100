//! A tick: what each client is sent.
ghost use Rattle.std.specs.Prelude.{◌≡◌, ◌+◌, ◌≤◌, ◌++◌, ◌∷◌, true, map, All, IfOk, OnErr, OnOk};
ghost use Rattle.std.specs.List.{flat_map, sum_by};
ghost use Rattle.instance_table.specs.Table.{TableState};
ghost use Rattle.room_model.specs.Room.{after_tick, tick_outs};
ghost use Rattle.room_laws.specs.Ordered.{Ordered};
ghost use Rattle.live_state.specs.Live.{rows_of, schema_of, swept_table};
ghost use Rattle.view_counts.specs.Settled.{view_before};
ghost use Rattle.view_edits.specs.There.{are_there};
ghost use Rattle.room_core.specs.Clients.{TellTheSame, client_tells};
ghost use Rattle.room_core.specs.Costs.{session_cost, tick_cost};
ghost use Rattle.room_core.specs.Stands.{CanSee, CanTick, ClientStands, RoomStands};
ghost use Rattle.room_core.specs.Ticks.{AllThere, Ticks, client_swept, frames_where, sent_to, ticked_client};
ghost use Rattle.room_core.specs.Values.{room_of, session_of_client};
ghost use Rattle.room_core.specs.declared.client.Client.{Client as Seen};

use crate::client::{Client, Frames};
use crate::frames::{full_frame, patch_frame};
use crate::parts::Parts;
use lists::Seq;
use live_state::LiveState;
use room_model::{RoomOut, RoomOuts, Stage};
use schema_model::{Bytes, Id, Memory};
use shared_encoder::encode_shared;
use std::alloc::Global;
use std::mem;
use std::sync::ledger::Ledger;
use steps::Steps;
use view_counts::ViewCounts;
use view_edits::forget_freed;
use view_encoder::{encode_full, encode_view};
use wire_model::Blocks;

impl Parts {
    /// A tick: what nothing holds is freed, and its pairs go from all views; then the views are settled and the frames
    /// made, in the order of reserving.
    pub fn tick<L: Ledger>(&mut self, steps: &mut Steps<L>) -> Result<RoomOuts, Memory>
        requires stands { RoomStands self.old }
        requires order { Ordered (room_of self.old) }
        ensures outs { IfOk result (λ outs. outs ≡ (after_tick (room_of self.old)).1) }
        ensures room { OnOk result (room_of self.new ≡ (after_tick (room_of self.old)).0) }
        ensures stands { OnOk result (RoomStands self.new) }
        ensures order { OnErr result (Ordered (room_of self.new)) }
        ensures cost { steps.new ≤ steps.old + tick_cost (room_of self.old) }
    {
        self.live.know_rows();
        self.live.sweep(steps)?;
        self.live.know_rows();
        forget_all(&self.live, &mut self.clients);
        self.shared.settle(&self.live, &self.none, steps)?;
        let part = encode_shared(self.alloc, &self.live, &self.shared, steps)?;
        let outs = tick_all(
            self.alloc,
            &self.live,
            &self.shared,
            &part,
            &mut self.clients,
            steps,
        )?;
        self.live.end_tick();
        Ok(outs)
    }
}

// Takes the pairs of the rows that the last sweep freed out of all views.
fn forget_all(live: &LiveState, clients: &mut Vec<Client>)
    requires { (old : TableState) × (live.now.table ≡ swept_table old) × AllThere old.state.rows clients.old.items }
    ensures clients { clients.new.items ≡ map (client_swept (rows_of live.now)) clients.old.items }
    ensures there { AllThere (rows_of live.now) clients.new.items }
{
    for client in clients.iter_mut() {
        forget_in_view(live, client);
    }
}

// The same of a client's view.
fn forget_in_view(live: &LiveState, client: &mut Client)
    requires { (old : TableState) × (live.now.table ≡ swept_table old) × (are_there old.state.rows client.old.members.now ≡ true) }
    ensures client { client.new ≡ client_swept (rows_of live.now) client.old }
    ensures there { are_there (rows_of live.now) client.new.members.now ≡ true }
{
    forget_freed(live, &mut client.members);
}

// The tick of each client: what they are sent, one after another.
fn tick_all<L: Ledger>(
    alloc: Global,
    live: &LiveState,
    shared: &ViewCounts,
    part: &Blocks,
    clients: &mut Vec<Client>,
    steps: &mut Steps<L>,
) -> Result<RoomOuts, Memory>
    requires { CanTick live.now shared.now part.now clients.old.items }
    ensures outs { IfOk result (λ outs. outs ≡ flat_map (λ (c : Seen). tick_outs (schema_of live.now) (view_before shared.now) (rows_of live.now) (session_of_client c)) clients.old.items) }
    ensures clients { OnOk result (map session_of_client clients.new.items ≡ map (ticked_client (schema_of live.now) (rows_of live.now)) clients.old.items) }
    ensures stand { OnOk result (All (ClientStands (schema_of live.now) (rows_of live.now) (rows_of live.now)) clients.new.items) }
    ensures told { OnErr result (TellTheSame clients.new.items clients.old.items) }
    ensures cost { steps.new ≤ steps.old + sum_by (λ (c : Seen). session_cost (schema_of live.now) (rows_of live.now) (session_of_client c)) clients.old.items }
{
    let mut outs = Seq::new(alloc);
    for client in clients.iter_mut() {
        let frames = tick_one(alloc, live, shared, part, client, steps)?;
        send_each(&mut outs, client.id, frames)?;
    }
    Ok(outs)
}

// Frames are sent to a session, one after another.
fn send_each(outs: &mut RoomOuts, session: Id, frames: Frames) -> Result<(), Memory>
    ensures { OnOk result (outs.new ≡ outs.old ++ sent_to session frames) }
{
    for frame in frames.into_vec() {
        outs.push(RoomOut::Send(session, frame))?;
    }
    Ok(())
}

// The tick of a client: the frames that it is sent. What waits for its full state comes behind it.
fn tick_one<L: Ledger>(
    alloc: Global,
    live: &LiveState,
    shared: &ViewCounts,
    part: &Blocks,
    client: &mut Client,
    steps: &mut Steps<L>,
) -> Result<Frames, Memory>
    requires { CanSee live.now shared.now part.now client.old }
    ensures ticks { IfOk result (Ticks live.now shared.now client.old client.new) }
    ensures told { client_tells client.new ≡ client_tells client.old }
    ensures cost { steps.new ≤ steps.old + session_cost (schema_of live.now) (rows_of live.now) (session_of_client client.old) }
{
    match client.stage {
        Stage::Due => {
            let state = encode_full(alloc, live, &client.members, steps)?;
            client.view.settle(live, &client.members, steps)?;
            client.members.end_tick();
            client.stage = Stage::Live;
            let waiting = mem::replace(&mut client.queue, Seq::new(alloc));
            in_front(full_frame(alloc, state)?, waiting)
        }
        Stage::Live => {
            client.view.settle(live, &client.members, steps)?;
            let state = encode_view(
                alloc,
                live,
                &client.members,
                shared,
                &client.view,
                part,
                steps,
            )?;
            client.members.end_tick();
            client.queue = Seq::new(alloc);
            where_changed(alloc, state)
        }
        _ => {
            client.members.end_tick();
            Ok(Seq::new(alloc))
        }
    }
}

// A frame before others.
fn in_front(frame: Bytes, others: Frames) -> Result<Frames, Memory>
    ensures { IfOk result (λ frames. frames ≡ frame ∷ others) }
{
    let mut frames = others.into_vec();
    match frames.insert(0, frame) {
        Ok(()) => Ok(Seq::from_vec(frames)),
        Err(_) => Err(Memory),
    }
}

// The patch of state bytes, where there are some.
fn where_changed(alloc: Global, state: Bytes) -> Result<Frames, Memory>
    ensures { IfOk result (λ frames. frames ≡ frames_where state) }
{
    let mut frames = Seq::new(alloc);
    if !state.is_empty() {
        frames.push(patch_frame(alloc, state)?)?;
    }
    Ok(frames)
}
