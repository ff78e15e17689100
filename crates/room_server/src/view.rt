//! The command `view`: writes the rows that a connection's client has at the end of what a replay printed.
ghost use Rattle.std.specs.Prelude.{◌≡◌, ◌≤◌, ◌^◌, length};
ghost use Rattle.outside.specs.Faults.{Rose};
ghost use Rattle.text_model.specs.OutLines.{read_print_text};
ghost use Rattle.room_server.specs.Answers.{client_answer, print_answer, refusal};
ghost use Rattle.room_server.specs.Endings.{EndsAs};
ghost use Rattle.room_server.specs.Frames.{frame_words};
ghost use Rattle.room_server.specs.Seen.{IsSeen, IsTold};
ghost use Rattle.room_server.specs.Views.{client_of, client_told};
ghost use Rattle.room_server.specs.declared.ending.Ending.TheVariants as ending;
ghost use Rattle.room_server.specs.declared.view.ViewFault.TheVariants as fault;

use crate::ending::Ending;
use crate::frame_words::frame_words;
use crate::output::{write_refusal, write_rows};
use crate::reading::{ended, part_word};
use client_core::ClientCore;
use hub_model::HubOut;
use life_model::ClientFault;
use lists::Memory;
use outside::Sink;
use plain_rows::Rows;
use schedule_text::read_print;
use std::alloc::Global;
use text_model::{Print, ScheduleFault};
use thiserror::Error;

/// Why there are no rows at the end.
#[derive(Clone, Copy, Debug, PartialEq, Eq, Error)]
pub enum ViewFault {
    /// The line of the first frame that the client refuses, and why.
    #[error("line {0}: {1}")]
    Frame(u32, ClientFault),
    #[error("out of memory")]
    Memory,
}

impl From<Memory> for ViewFault {
    ghost from_gives = { λ _ given. given ≡ fault.Memory };

    fn from(_: Memory) -> Self {
        ViewFault::Memory
    }
}

/// Writes the rows of a connection's client, of what a replay printed, or the line of the first fault or refused frame.
pub fn view_text<K: Sink>(alloc: Global, conn: u64, text: &[u8], sink: &mut K) -> Ending
    requires short { length text.now ≤ 2 ^ 24 }
    ensures ends { EndsAs (print_answer conn (read_print_text text.now)) (K.taken sink.old) (K.taken sink.new) result }
    ensures later { K.faults sink.old ≤ K.faults sink.new }
    ensures cause { result ≡ ending.WriteFailed → Rose (K.faults sink.old) (K.faults sink.new) }
    ensures quiet { (result ≡ ending.WriteFailed → ⊥) → K.faults sink.new ≡ K.faults sink.old }
{
    match read_print(alloc, text) {
        Ok(print) => view_print(alloc, conn, print, sink),
        Err(ScheduleFault::Line(number, part)) => {
            let word = part_word(part);
            ended(write_refusal(alloc, sink, number, word), Ending::Refused)
        }
        Err(ScheduleFault::Memory) => Ending::Memory,
    }
}

/// The same of a text that was read.
fn view_print<K: Sink>(alloc: Global, conn: u64, print: Print, sink: &mut K) -> Ending
    ensures ends { EndsAs (client_answer (client_of conn print)) (K.taken sink.old) (K.taken sink.new) result }
    ensures later { K.faults sink.old ≤ K.faults sink.new }
    ensures cause { result ≡ ending.WriteFailed → Rose (K.faults sink.old) (K.faults sink.new) }
    ensures quiet { (result ≡ ending.WriteFailed → ⊥) → K.faults sink.new ≡ K.faults sink.old }
{
    match rows_of(alloc, conn, print) {
        Ok(rows) => ended(write_rows(alloc, sink, &rows), Ending::Done),
        Err(ViewFault::Frame(number, fault)) => refuse_frame(alloc, sink, number, fault),
        Err(ViewFault::Memory) => Ending::Memory,
    }
}

/// Writes the line of a refused frame.
fn refuse_frame<K: Sink>(alloc: Global, sink: &mut K, number: u32, fault: ClientFault) -> Ending
    ensures ends { EndsAs (refusal number (frame_words fault)) (K.taken sink.old) (K.taken sink.new) result }
    ensures later { K.faults sink.old ≤ K.faults sink.new }
    ensures cause { result ≡ ending.WriteFailed → Rose (K.faults sink.old) (K.faults sink.new) }
    ensures quiet { (result ≡ ending.WriteFailed → ⊥) → K.faults sink.new ≡ K.faults sink.old }
{
    match frame_words(alloc, fault) {
        Ok(word) => ended(
            write_refusal(alloc, sink, number, word.as_str()),
            Ending::Refused,
        ),
        Err(_) => Ending::Memory,
    }
}

/// The rows of a connection's client at the end, or the first frame that it refuses.
fn rows_of(alloc: Global, conn: u64, print: Print) -> Result<Rows, ViewFault>
    ensures { IsSeen (client_of conn print) result }
{
    let Print { schema, outs } = print;
    let mut core = ClientCore::new(alloc, schema)?;
    for line in outs.as_slice() {
        let (number, out) = line;
        tell(&mut core, conn, *number, out)?;
    }
    Ok(core.rows()?)
}

/// Has the client of a connection take an output, where it is one of this connection.
fn tell(core: &mut ClientCore, conn: u64, number: u32, out: &HubOut) -> Result<(), ViewFault>
    ensures { IsTold number (client_told conn core.old.schema core.old.client out.now) core.old core.new result }
{
    match out {
        HubOut::Send(to, bytes) if to.0 == conn => match core.take(bytes.as_slice()) {
            Ok(_) => Ok(()),
            Err(ClientFault::Memory) => Err(ViewFault::Memory),
            Err(fault) => Err(ViewFault::Frame(number, fault)),
        },
        HubOut::Close(to, _) if to.0 == conn => {
            core.close();
            Ok(())
        }
        _ => Ok(()),
    }
}
