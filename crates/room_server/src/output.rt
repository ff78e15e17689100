//! Writing lines to a sink.
ghost use Rattle.std.specs.Prelude.{◌≡◌, ◌++◌, IfOk};
ghost use Rattle.std.specs.List.{flat_map};
ghost use Rattle.outside.specs.Faults.{HasCause};
ghost use Rattle.text_model.specs.Outputs.{out_line};
ghost use Rattle.text_model.specs.RowLines.{rows_text};
ghost use Rattle.text_model.specs.SchemaLines.{schema_text};
ghost use Rattle.room_server.specs.Answers.{fault_line};
ghost use Rattle.room_server.specs.Endings.{Writes, HasWriteCause};
ghost use Rattle.room_server.specs.Turns.{end_line};
ghost use Rattle.room_server.specs.Words.{usage_line};
ghost use Rattle.room_server.specs.declared.output.WriteFault.TheVariants as fault;

use hub_model::HubOuts;
use lists::Memory;
use outside::{Failed, Sink, write_all};
use plain_rows::Rows;
use schedule_text::{print_end, print_fault, print_out, print_rows};
use schema_model::Schema;
use schema_reader::write_schema as schema_text;
use std::alloc::Global;
use thiserror::Error;

/// The line that says how the program is used.
const USAGE: &[u8] = b"usage: replay | serve PORT COUNT | view CONN | make SEED ROUNDS\n";

/// Why lines couldn't be written.
#[derive(Clone, Copy, Debug, PartialEq, Eq, Error)]
pub enum WriteFault {
    #[error("the sink failed")]
    Failed,
    #[error("out of memory")]
    Memory,
}

impl From<Failed> for WriteFault {
    ghost from_gives = { λ _ given. given ≡ fault.Failed };

    fn from(_: Failed) -> Self {
        WriteFault::Failed
    }
}

impl From<Memory> for WriteFault {
    ghost from_gives = { λ _ given. given ≡ fault.Memory };

    fn from(_: Memory) -> Self {
        WriteFault::Memory
    }
}

/// Writes the line that says how the program is used. It takes no memory.
pub fn write_usage<K: Sink>(sink: &mut K) -> Result<(), Failed>
    ensures writes { Writes (K.taken sink.old) (K.taken sink.new) usage_line result }
    ensures cause { HasCause (K.faults sink.old) (K.faults sink.new) result }
{
    write_all(sink, USAGE)
}

/// Writes a text as it is.
pub fn write_text<K: Sink>(sink: &mut K, text: &[u8]) -> Result<(), WriteFault>
    ensures writes { Writes (K.taken sink.old) (K.taken sink.new) text.now result }
    ensures cause { HasWriteCause (K.faults sink.old) (K.faults sink.new) result }
{
    write_all(sink, text)?;
    Ok(())
}

/// Writes the line of a fault: the number of the line where it stands, and its word.
pub fn write_refusal<K: Sink>(
    alloc: Global,
    sink: &mut K,
    number: u32,
    word: &str,
) -> Result<(), WriteFault>
    ensures writes { Writes (K.taken sink.old) (K.taken sink.new) (fault_line number word.now) result }
    ensures cause { HasWriteCause (K.faults sink.old) (K.faults sink.new) result }
{
    let mut text = Vec::new(alloc);
    print_fault(&mut text, number, word)?;
    write_text(sink, &text)
}

/// Writes the lines of a schema.
pub fn write_schema<K: Sink>(alloc: Global, sink: &mut K, schema: &Schema) -> Result<(), WriteFault>
    ensures writes { Writes (K.taken sink.old) (K.taken sink.new) (schema_text schema.now) result }
    ensures cause { HasWriteCause (K.faults sink.old) (K.faults sink.new) result }
{
    let text = schema_text(alloc, schema)?;
    write_text(sink, text.as_slice())
}

/// Writes the lines of the outputs of one event.
pub fn write_outs<K: Sink>(alloc: Global, sink: &mut K, outs: &HubOuts) -> Result<(), WriteFault>
    ensures writes { Writes (K.taken sink.old) (K.taken sink.new) (flat_map out_line outs.now) result }
    ensures cause { HasWriteCause (K.faults sink.old) (K.faults sink.new) result }
{
    let text = out_lines(alloc, outs)?;
    write_text(sink, &text)
}

// The lines of outputs.
fn out_lines(alloc: Global, outs: &HubOuts) -> Result<Vec<u8>, Memory>
    ensures { IfOk result (λ text. text.items ≡ flat_map out_line outs.now) }
{
    let mut text = Vec::new(alloc);
    for out in outs.as_slice() {
        print_out(&mut text, out)?;
    }
    Ok(text)
}

/// Writes the lines of rows, and `end`.
pub fn write_rows<K: Sink>(alloc: Global, sink: &mut K, rows: &Rows) -> Result<(), WriteFault>
    ensures writes { Writes (K.taken sink.old) (K.taken sink.new) (rows_text rows.now ++ end_line) result }
    ensures cause { HasWriteCause (K.faults sink.old) (K.faults sink.new) result }
{
    let text = row_lines(alloc, rows)?;
    write_text(sink, &text)
}

// The lines of rows, and `end`.
fn row_lines(alloc: Global, rows: &Rows) -> Result<Vec<u8>, Memory>
    ensures { IfOk result (λ text. text.items ≡ rows_text rows.now ++ end_line) }
{
    let mut text = Vec::new(alloc);
    print_rows(&mut text, rows)?;
    print_end(&mut text)?;
    Ok(text)
}

/// Writes the line `end`.
pub fn write_end<K: Sink>(alloc: Global, sink: &mut K) -> Result<(), WriteFault>
    ensures writes { Writes (K.taken sink.old) (K.taken sink.new) end_line result }
    ensures cause { HasWriteCause (K.faults sink.old) (K.faults sink.new) result }
{
    let mut text = Vec::new(alloc);
    print_end(&mut text)?;
    write_text(sink, &text)
}
