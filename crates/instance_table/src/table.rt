//! The shared graph of a room.
ghost use Rattle.std.specs.Prelude.{◌≡◌, ◌≤◌, ◌+◌, Err, IfOk, None, Ok, OnErr, OnOk, Some, false, is_ok, length, option_copied, slice_get, true, if◌then◌else◌};
ghost use Rattle.std.specs.Option.{option_map};
ghost use Rattle.state_model.specs.declared.command.TableFault.TheVariants as fault;
ghost use Rattle.state_model.specs.Commands.{do_command, holder_of, refusal_of};
ghost use Rattle.state_model.specs.Rows.{is_live, row_at};
ghost use Rattle.state_model.specs.Spelled.{are_spelled};
ghost use Rattle.state_model.specs.State as state;
ghost use Rattle.command_laws.specs.Kept.{IsKept};
ghost use Rattle.instance_table.specs.Behind.{numbers_behind, places_behind};
ghost use Rattle.instance_table.specs.Bodies.{row_of, takes_out};
ghost use Rattle.instance_table.specs.Holders.{holders_of};
ghost use Rattle.command_laws.specs.Later.{IsLater};
ghost use Rattle.instance_table.specs.Table.{Answers, freed_numbers, new_table, value_of};

use crate::behind::{numbers_behind, see_behind};
use crate::body::Body;
use crate::changes::change;
use crate::fixed_room::FixedRoom;
use crate::graph::Graph;
use crate::made::made;
use crate::plan::{Plan, Verdict};
use crate::refusal::judge;
use crate::roomy_list::RoomyList;
use crate::sweeping::sweep;
use crate::totals::Totals;
use lists::Rising;
use schema_model::{Memory, Place, RefNum, Schema, Tag, Value};
use state_model::{Command, Rows, TableFault, know_texts};
use std::alloc::Global;
use std::marker::Model;
use std::sync::ledger::Ledger;
use steps::Steps;

/// The state of a room: rows under typed numbers, changed in place by commands. Of each row it knows the places that
/// hold it.
#[derive(Drop)]
pub struct Table {
    alloc: Global,
    schema: Schema,
    graph: Graph,
    given: u32,
    totals: Totals,
    swept: RoomyList,
    // Room for a walk to all rows, so that what a command is refused for is known whatever memory does.
    spare: RoomyList,
}

impl Model for Table {
    ghost use Rattle.std.specs.Prelude.{◌≤◌, length};
    ghost use Rattle.instance_table.specs.Table.{IsTable, TableState, state_in};

    ghost Value = { TableState };

    ghost view = { λ t. record { schema = t.schema; state = state_in t.graph.nodes t.given; swept = t.swept.numbers } };

    ghost invariant = { λ t. IsTable t.schema t.graph.nodes t.given t.totals.places t.totals.text
        × (length t.graph.nodes ≤ t.swept.room) × (length t.graph.nodes ≤ t.spare.room) };
}

impl Table {
    /// A table of the root alone.
    pub fn new(alloc: Global, schema: Schema) -> Result<Table, Memory>
        ensures { IfOk result (λ t. t ≡ new_table schema) }
    {
        let mut graph = Graph::new(alloc);
        let mut swept = RoomyList::new(alloc);
        swept.reserve(1)?;
        let mut spare = RoomyList::new(alloc);
        spare.reserve(1)?;
        let root = Body::Struct(schema.root, Rising::new(alloc));
        graph.add(alloc, RefNum(0), root)?;
        Ok(Table {
            alloc,
            schema,
            graph,
            given: 0,
            totals: Totals { places: 0, text: 0 },
            swept,
            spare,
        })
    }

    /// The schema. Every table's rows are sound and without a cycle, and their numbers, keys and texts have bytes.
    pub fn schema(&self) -> &Schema
        ensures value { result.now ≡ self.now.schema }
        ensures kept { IsKept self.now.schema self.now.state }
        ensures spelled { are_spelled self.now.state.rows ≡ true }
    {
        &self.schema
    }

    /// Does a command, or answers the first cause for which it is refused. Some exactly for a command that makes a row:
    /// the row's number. A refused command changes nothing, and one for which memory is wanting neither. A refusal is
    /// told whatever memory does, and commands that only take places out take no memory. What stays keeps its kind and
    /// its key, and no number is given again.
    pub fn apply(&mut self, command: &Command) -> Result<Option<RefNum>, TableFault>
        ensures answer { Answers (do_command self.old.schema self.old.state command.now) self.old self.new result }
        ensures later { IsLater self.old.state self.new.state }
        ensures sure { result ≡ Err fault.Memory → takes_out command.now ≡ false }
        ensures lacks { result ≡ Err fault.Memory → is_ok (do_command self.old.schema self.old.state command.now) ≡ true }
    {
        know_texts(command);
        let verdict = judge(
            self.alloc,
            &mut self.spare,
            &self.schema,
            &self.graph,
            self.given,
            self.totals,
            command,
        );
        match verdict {
            Verdict::Refused(fault) => Err(fault),
            Verdict::Makes => match self.make(command) {
                Ok(made) => Ok(made),
                Err(Memory) => Err(TableFault::Memory),
            },
            Verdict::Changes(holder, plan) => {
                let Plan {
                    located,
                    before,
                    totals,
                } = plan;
                match change(
                    &mut self.graph,
                    self.alloc,
                    holder,
                    command,
                    &located,
                    before,
                ) {
                    Ok(()) => {
                        self.totals = totals;
                        Ok(None)
                    }
                    Err(Memory) => Err(TableFault::Memory),
                }
            }
        }
    }

    // Makes a row, where the command makes one.
    fn make(&mut self, command: &Command) -> Result<Option<RefNum>, Memory>
        requires makes { holder_of command.now ≡ None }
        requires free { refusal_of self.old.schema self.old.state command.now ≡ None }
        ensures ok { IfOk result (λ made. do_command self.old.schema self.old.state command.now ≡ Ok (self.new.state, made)) }
        ensures schema { self.new.schema ≡ self.old.schema }
        ensures swept { self.new.swept ≡ self.old.swept }
        ensures err { OnErr result (self.new ≡ self.old) }
    {
        let Some(body) = made(self.alloc, &self.schema, command)? else {
            return Ok(None);
        };
        let who = RefNum(self.given + 1);
        self.swept.reserve(self.graph.len() + 1)?;
        self.spare.reserve(self.graph.len() + 1)?;
        self.graph.add(self.alloc, who, body)?;
        self.given += 1;
        Ok(Some(who))
    }

    /// The value in a place; None exactly where nothing is there.
    pub fn read<L: Ledger>(&self, at: Place, steps: &mut Steps<L>) -> Option<&Value>
        ensures value { option_copied result ≡ value_of self.now.state.rows at.holder at.key }
        ensures cost { steps.new ≡ steps.old + 1 }
    {
        steps.tick();
        let node = self.graph.get(at.holder)?;
        node.body.value_at(at.key)
    }

    /// The row of a number; None exactly where it isn't live.
    pub fn row(&self, who: RefNum) -> Option<&Body>
        ensures { option_map row_of (option_copied result) ≡ row_at self.now.state.rows who }
    {
        let node = self.graph.get(who)?;
        Some(&node.body)
    }

    /// How many places hold a row.
    pub fn count_of<L: Ledger>(&self, who: RefNum, steps: &mut Steps<L>) -> u32
        ensures value { result ≡ length (holders_of self.now.state.rows who) }
        ensures cost { steps.new ≡ steps.old + 1 }
    {
        steps.tick();
        match self.graph.get(who) {
            Some(node) => node.holders.len() as u32,
            None => 0,
        }
    }

    /// The holder of the n-th place that holds a row; None exactly where n isn't below their number. The places rise by
    /// holder, and then by key.
    pub fn holder_at<L: Ledger>(&self, who: RefNum, n: u32, steps: &mut Steps<L>) -> Option<RefNum>
        ensures value { result ≡ slice_get (holders_of self.now.state.rows who) n }
        ensures cost { steps.new ≡ steps.old + 1 }
    {
        steps.tick();
        let node = self.graph.get(who)?;
        node.holders.at(n as usize)
    }

    /// The number of a row and every number that is reached from it through places that are untagged or have the tag,
    /// rising; None exactly where the row isn't live, which takes no memory. Every item of a collection leads on. It looks
    /// once at each place of the rows of these numbers, and at no others.
    pub fn behind<L: Ledger>(
        &self,
        who: RefNum,
        tag: Tag,
        steps: &mut Steps<L>,
    ) -> Result<Option<Vec<RefNum>>, Memory>
        ensures value { IfOk result (λ found.
            option_map (λ ns. ns.items) found ≡ numbers_behind self.now.schema self.now.state.rows who tag) }
        ensures lacks { OnErr result (is_live self.now.state.rows who ≡ true) }
        ensures cost { OnOk result (
            steps.new ≡ steps.old + places_behind self.now.schema self.now.state.rows who tag) }
        ensures most { steps.new ≤ steps.old + places_behind self.now.schema self.now.state.rows who tag }
    {
        if self.graph.get(who).is_none() {
            return Ok(None);
        }
        let nodes = self.graph.nodes();
        let numbers = numbers_behind(self.alloc, &self.schema, nodes, who, tag, steps)?;
        Ok(Some(numbers))
    }

    /// What `behind` finds, in a room that is given, so that it takes no memory: whether the row is live, and then the
    /// numbers, which the room saw.
    pub fn see_behind<L: Ledger>(
        &self,
        who: RefNum,
        tag: Tag,
        room: &mut FixedRoom,
        steps: &mut Steps<L>,
    ) -> bool
        ensures live { result ≡ is_live self.now.state.rows who }
        ensures value { (if result then Some room.new.seen else None) ≡ numbers_behind self.now.schema self.now.state.rows who tag }
        ensures cost { steps.new ≡ steps.old + places_behind self.now.schema self.now.state.rows who tag }
    {
        let nodes = self.graph.nodes();
        if nodes.get(who).is_none() {
            return false;
        }
        room.clear();
        see_behind(&self.schema, nodes, who, tag, room, steps);
        true
    }

    /// How many rows there are.
    pub fn len(&self) -> usize
        ensures { result ≡ length self.now.state.rows }
    {
        self.graph.len()
    }

    /// All rows.
    pub fn rows(&self) -> Result<Rows, Memory>
        ensures { IfOk result (λ r. r ≡ self.now.state.rows) }
    {
        self.graph.nodes().copy_rows(self.alloc)
    }

    /// Frees the rows that nothing holds, but for the root, and then those that only they held. Takes no memory.
    pub fn sweep(&mut self)
        ensures schema { self.new.schema ≡ self.old.schema }
        ensures state { self.new.state ≡ state.swept self.old.state }
        ensures later { IsLater self.old.state self.new.state }
        ensures swept { self.new.swept ≡ freed_numbers self.old.state.rows }
    {
        self.swept.clear();
        sweep(&mut self.graph, &mut self.totals, &mut self.swept);
        self.swept.sort();
    }

    /// The numbers that the last sweep freed, rising.
    pub fn swept(&self) -> &[RefNum]
        ensures { result.now ≡ self.now.swept }
    {
        self.swept.as_slice()
    }
}
