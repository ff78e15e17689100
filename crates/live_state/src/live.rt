//! A room's state.
ghost use Rattle.std.specs.Prelude.{◌≡◌, ◌+◌, ◌≤◌, true, false, Err, IfOk, IsTrue, OnOk, is_ok};
ghost use Rattle.schema_model.specs.Classes.{is_kept};
ghost use Rattle.state_model.specs.declared.command.TableFault.TheVariants as fault;
ghost use Rattle.state_model.specs.Commands.{do_command};
ghost use Rattle.state_model.specs.Members.{pairs_behind};
ghost use Rattle.state_model.specs.Rows.{is_live, place_count};
ghost use Rattle.state_model.specs.Spelled.{are_spelled};
ghost use Rattle.command_laws.specs.Kept.{IsKept};
ghost use Rattle.instance_table.specs.Behind.{places_behind};
ghost use Rattle.command_laws.specs.Later.{IsLater};
ghost use Rattle.instance_table.specs.Table.{Answers};
ghost use Rattle.live_state.specs.Live.{new_live, schema_of, rows_of, swept_table, pairs_of};

use crate::fault::ExpandFault;
use instance_table::Table;
use schema_model::{Memory, Pair, RefNum, Schema, Tag};
use state_model::{Command, Rows, TableFault};
use std::alloc::Global;
use std::marker::Model;
use std::sync::ledger::Ledger;
use steps::Steps;

/// The state of a room: its rows, changed by commands.
#[derive(Drop)]
pub struct LiveState {
    alloc: Global,
    table: Table,
}

impl Model for LiveState {
    ghost use Rattle.live_state.specs.Live.{Live};

    ghost Value = { Live };

    ghost view = { λ l. record { table = l.table } };
}

impl LiveState {
    /// The root alone.
    pub fn new(alloc: Global, schema: Schema) -> Result<LiveState, Memory>
        ensures { IfOk result (λ live. live ≡ new_live schema) }
    {
        Ok(LiveState {
            alloc,
            table: Table::new(alloc, schema)?,
        })
    }

    /// Does a command, or answers the first cause for which it is refused; see `Table::apply`. A refused command changes
    /// nothing, and one for which memory is wanting neither. A refusal is told whatever memory does.
    pub fn apply(&mut self, command: &Command) -> Result<Option<RefNum>, TableFault>
        ensures answer { Answers (do_command self.old.table.schema self.old.table.state command.now) self.old.table self.new.table result }
        ensures schema { schema_of self.new ≡ schema_of self.old }
        ensures later { IsLater self.old.table.state self.new.table.state }
        ensures lacks { result ≡ Err fault.Memory → is_ok (do_command self.old.table.schema self.old.table.state command.now) ≡ true }
    {
        self.table.apply(command)
    }

    /// The pairs of a view edit: of a row under a tag, and of every row that is reached from it through places that are
    /// untagged or have the tag; rising. NoRef exactly where the row isn't live, whatever memory does. It takes a step for
    /// each place of these rows, and for no others.
    pub fn expand<L: Ledger>(
        &self,
        who: RefNum,
        tag: Tag,
        steps: &mut Steps<L>,
    ) -> Result<Vec<Pair>, ExpandFault>
        ensures pairs { IfOk result (λ pairs. (is_live (rows_of self.now) who ≡ true)
            × (pairs.items ≡ pairs_behind (schema_of self.now) (rows_of self.now) (record { who = who; tag = tag }))) }
        ensures none { result ≡ Err ExpandFault.NoRef → is_live (rows_of self.now) who ≡ false }
        ensures lacks { result ≡ Err ExpandFault.Memory → is_live (rows_of self.now) who ≡ true }
        ensures cost { OnOk result (steps.new ≡ steps.old + places_behind (schema_of self.now) (rows_of self.now) who tag) }
        ensures most { steps.new ≤ steps.old + places_behind (schema_of self.now) (rows_of self.now) who tag }
        ensures cost_of_none { result ≡ Err ExpandFault.NoRef → steps.new ≡ steps.old + places_behind (schema_of self.now) (rows_of self.now) who tag }
    {
        match self.table.behind(who, tag, steps)? {
            Some(numbers) => Ok(pairs_under(self.alloc, numbers.as_slice(), tag)?),
            None => Err(ExpandFault::NoRef),
        }
    }

    /// The schema. The rows of every live state are sound, without a cycle, and have bytes.
    pub fn schema(&self) -> &Schema
        ensures value { result.now ≡ schema_of self.now }
        ensures limits { IsTrue (is_kept (schema_of self.now)) }
        ensures kept { IsKept (schema_of self.now) self.now.table.state }
        ensures spelled { IsTrue (are_spelled (rows_of self.now)) }
    {
        let schema = self.table.schema();
        schema.know_limits();
        schema
    }

    /// What every live state keeps: its rows are sound, without a cycle, and have bytes. It does nothing else than to say so.
    pub fn know_rows(&self)
        ensures limits { IsTrue (is_kept (schema_of self.now)) }
        ensures kept { IsKept (schema_of self.now) self.now.table.state }
        ensures spelled { IsTrue (are_spelled (rows_of self.now)) }
    {
        self.schema();
    }

    /// The table of the rows now.
    pub fn table(&self) -> &Table
        ensures { result.now ≡ self.now.table }
    {
        &self.table
    }

    /// All rows now.
    pub fn rows(&self) -> Result<Rows, Memory>
        ensures { IfOk result (λ rows. rows ≡ rows_of self.now) }
    {
        self.table.rows()
    }

    /// Frees the rows that nothing holds, before a tick is encoded. A sweep isn't counted in steps: it takes none, though
    /// a step for each place of the state is allowed. After an `Err` the state is used no more.
    pub fn sweep<L: Ledger>(&mut self, _steps: &mut Steps<L>) -> Result<(), Memory>
        ensures freed { OnOk result (self.new.table ≡ swept_table self.old.table) }
        ensures later { OnOk result (IsLater self.old.table.state self.new.table.state) }
        ensures cost { _steps.new ≤ _steps.old + place_count (rows_of self.old) }
    {
        self.table.sweep();
        Ok(())
    }

    /// Ends a tick.
    pub fn end_tick(&mut self)
        ensures { self.new.table ≡ self.old.table }
    {}
}

// The rows of these numbers, each under the tag.
fn pairs_under(alloc: Global, numbers: &[RefNum], tag: Tag) -> Result<Vec<Pair>, Memory>
    ensures { IfOk result (λ pairs. pairs.items ≡ pairs_of numbers.now tag) }
{
    let mut pairs = Vec::with_capacity(alloc, numbers.len())?;
    for who in numbers {
        pairs.push(Pair { who: *who, tag })?;
    }
    Ok(pairs)
}
