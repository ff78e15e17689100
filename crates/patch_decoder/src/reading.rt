//! State bytes done to rows, step by step.
ghost use Rattle.std.specs.Prelude.{◌≡◌, ◌<◌, true, length, IfOk, OnOk, Some, IsTrue};
ghost use Rattle.lists.specs.Rising.{RisesFrom};
ghost use Rattle.schema_model.specs.Classes.{is_kept};
ghost use Rattle.state_model.specs.Rows.{number_of, root_alone, row_at};
ghost use Rattle.state_model.specs.Reached.{freed};
ghost use Rattle.wire_model.specs.Decoded.{decoded};
ghost use Rattle.wire_model.specs.Grammar.{step_at};
ghost use Rattle.op_reader.specs.Known.{Reads, is_holder};
ghost use Rattle.patch_decoder.specs.Decoders.{AreKnown, Decodes};
ghost use Rattle.patch_decoder.specs.Runs.{Opens, TakesStep, Steps, Leads, closed_rows};

use crate::drafts::Drafts;
use crate::run::Run;
use lists::Memory;
use op_reader::read_op_on;
use plain_rows::{Rows, freed_of};
use schema_model::{RefNum, Schema};
use std::alloc::Global;
use wire_model::{OpFault, Step};

/// The rows after the steps that bytes spell, of which what nothing holds is freed; or the first fault.
pub fn decoded(alloc: Global, schema: &Schema, rows: &Rows, bytes: &[u8]) -> Result<Rows, OpFault>
    requires { AreKnown schema.now rows.now }
    ensures value { Decodes result (decoded schema.now bytes.now rows.now) }
    ensures known { IfOk result (λ after. AreKnown schema.now after) }
{
    let run = read_steps(alloc, schema, rows, bytes)?;
    match ended(alloc, run) {
        Ok(rows) => Ok(rows),
        Err(Memory) => Err(OpFault::Memory),
    }
}

/// The same, from the root alone.
pub fn decoded_anew(alloc: Global, schema: &Schema, bytes: &[u8]) -> Result<Rows, OpFault>
    ensures value { Decodes result (decoded schema.now bytes.now (root_alone schema.now)) }
    ensures known { IfOk result (λ after. AreKnown schema.now after) }
{
    schema.know_limits();
    match Rows::root_alone(alloc, schema) {
        Ok(root) => decoded(alloc, schema, &root, bytes),
        Err(Memory) => Err(OpFault::Memory),
    }
}

// Copies of the rows, the root open.
fn started(alloc: Global, rows: &Rows) -> Result<Run, Memory>
    ensures opens { IfOk result (λ run. Opens rows.now 0 run) }
    ensures rises { RisesFrom number_of 0 rows.now }
{
    Run::open(alloc, Drafts::of(alloc, rows)?, RefNum(0))
}

// Does the steps up to the end of the bytes, or up to the first fault.
fn read_steps(alloc: Global, schema: &Schema, rows: &Rows, bytes: &[u8]) -> Result<Run, OpFault>
    requires { AreKnown schema.now rows.now }
    ensures { Leads schema.now rows.now bytes.now result }
{
    schema.know_limits();
    let Ok(mut run) = started(alloc, rows) else {
        return Err(OpFault::Memory);
    };
    let mut at = 0;
    while at < bytes.len() {
        at = read_step(alloc, schema, &mut run, bytes, at)?;
    }
    Ok(run)
}

// Does one step, and answers the place after it.
fn read_step(
    alloc: Global,
    schema: &Schema,
    run: &mut Run,
    bytes: &[u8],
    at: usize,
) -> Result<usize, OpFault>
    requires place { at < length bytes.now }
    requires holder { is_holder schema.now run.old.rows run.old.who ≡ true }
    requires kind { row_at run.old.rows run.old.who ≡ Some run.old.kind }
    ensures { Steps schema.now bytes.now at run.old run.new result }
{
    let (step, next) = read_here(alloc, schema, run, bytes, at)?;
    do_step(alloc, schema, run, &step, at + 1)?;
    Ok(next)
}

// The step at a place.
fn read_here(
    alloc: Global,
    schema: &Schema,
    run: &Run,
    bytes: &[u8],
    at: usize,
) -> Result<(Step, usize), OpFault>
    requires place { at < length bytes.now }
    requires holder { is_holder schema.now run.now.rows run.now.who ≡ true }
    requires kind { row_at run.now.rows run.now.who ≡ Some run.now.kind }
    ensures { Reads result (step_at schema.now run.now.rows run.now.who bytes.now at) }
{
    read_op_on(alloc, schema, run.rows(), run.kind(), bytes, at)
}

// Does a step; `place` is told where it is an operation that doesn't find its item.
fn do_step(
    alloc: Global,
    schema: &Schema,
    run: &mut Run,
    step: &Step,
    place: usize,
) -> Result<(), OpFault>
    ensures { TakesStep schema.now step.now place run.old run.new result }
{
    match step {
        Step::Turn(who) => match run.turn(alloc, *who) {
            Ok(()) => Ok(()),
            Err(Memory) => Err(OpFault::Memory),
        },
        Step::Do(op) => run.act(alloc, schema, op, place),
    }
}

// The rows, freed of what nothing holds.
fn ended(alloc: Global, run: Run) -> Result<Rows, Memory>
    ensures { IfOk result (λ rows. rows ≡ freed (closed_rows run)) }
{
    let rows = run.close(alloc)?.into_rows(alloc)?;
    freed_of(alloc, rows)
}
