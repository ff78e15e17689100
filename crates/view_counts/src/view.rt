//! What a client may see, from one tick to the next.
ghost use Rattle.std.specs.Prelude.{◌≡◌, ◌+◌, ◌≤◌, IfOk, OnErr, OnOk};
ghost use Rattle.view_counts.specs.Settled.{CanSettle, new_view, settled, settling_steps, view_before, view_now};

use crate::reads::{count_places, count_reads};
use live_state::LiveState;
use plain_rows::{Rows, permitted};
use schema_model::{Memory, Schema};
use std::alloc::Global;
use std::marker::Model;
use std::mem;
use std::sync::ledger::Ledger;
use steps::Steps;
use view_members::Members;

/// The permitted view of a client at a tick, and the one before.
#[derive(Drop)]
pub struct ViewCounts {
    alloc: Global,
    is_new: bool,
    before: Rows,
    after: Rows,
}

impl Model for ViewCounts {
    ghost use Rattle.view_counts.specs.Settled.{View};

    ghost Value = { View };

    ghost view = { λ v. record { is_new = v.is_new; before = v.before; after = v.after } };
}

impl ViewCounts {
    /// The root alone, as at no tick yet.
    pub fn new(alloc: Global, schema: &Schema) -> Result<ViewCounts, Memory>
        ensures { IfOk result (λ view. view ≡ new_view schema.now) }
    {
        Ok(ViewCounts {
            alloc,
            is_new: true,
            before: Rows::root_alone(alloc, schema)?,
            after: Rows::root_alone(alloc, schema)?,
        })
    }

    /// Brings it to the permitted view now, and keeps the one before. After an `Err` it is used no more. It takes a step
    /// for each place and each pair.
    pub fn settle<L: Ledger>(
        &mut self,
        live: &LiveState,
        members: &Members,
        steps: &mut Steps<L>,
    ) -> Result<(), Memory>
        requires { CanSettle live.now members.now self.old }
        ensures settled { OnOk result (self.new ≡ settled live.now members.now self.old) }
        ensures cost { steps.new ≤ steps.old + settling_steps live.now members.now }
    {
        let rows = live.rows()?;
        count_places(&rows, steps);
        let pairs = members.pairs()?;
        count_reads(pairs.len(), steps);
        let view = permitted(self.alloc, live.schema(), &rows, pairs.as_slice())?;
        self.before = mem::replace(&mut self.after, view);
        self.is_new = false;
        Ok(())
    }

    /// The rows before it was settled last.
    pub fn before(&self) -> &Rows
        ensures { result.now ≡ view_before self.now }
    {
        &self.before
    }

    /// The rows now.
    pub fn after(&self) -> &Rows
        ensures { result.now ≡ view_now self.now }
    {
        &self.after
    }
}
