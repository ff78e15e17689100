ghost use Rattle.std.specs.Prelude.{◌≡◌, ◌<◌, ◌≤◌, [], length, take, IfSome, None};
ghost use Rattle.outside.specs.Streams.{Takes, TakesPrefix};

use crate::fault::Failed;
use crate::sink::Sink;
use std::io::{ErrorKind, Write};
use std::marker::Model;

// How often a write that a signal interrupted is tried.
const TRIES: u32 = 1000;

/// A sink over a writer of std, as `std::io::writer(&rt)`. Each write is flushed; where only the flush
/// fails, the call has failed though its bytes may have gone. It shows of its bytes what the writer shows.
#[derive(Drop)]
pub struct StdSink<W> {
    writer: W,
    faults: u64,
}

impl<W> Model for StdSink<W> {
    ghost use Rattle.outside.specs.Adapters.{Adapter};

    ghost Value = { Adapter W };

    ghost view = { λ s. record { inside = s.writer; faults = s.faults } };
}

impl<W> StdSink<W> {
    /// Takes the writer over.
    pub fn new(writer: W) -> Self
        ensures { result ≡ record { inside = writer; faults = 0 } }
    {
        StdSink { writer, faults: 0 }
    }

    /// How often it has failed.
    pub fn faults(&self) -> u64
        ensures { result ≡ self.now.faults }
    {
        self.faults
    }
}

impl<W: Write> Sink for StdSink<W> {
    ghost faults = { λ s. s.faults };

    ghost taken = { λ s. W.contents s.inside };

    fn write(&mut self, from: &[u8]) -> Result<usize, Failed> {
        match write_through(&mut self.writer, from) {
            Some(count) => Ok(count),
            None => {
                self.faults = self.faults.saturating_add(1);
                Err(Failed)
            }
        }
    }
}

// Writes and flushes.
fn write_through<W: Write>(writer: &mut W, from: &[u8]) -> Option<usize>
    ensures within { IfSome result (λ count. count ≤ length from.now) }
    ensures some { IfSome result (λ count. 0 < length from.now → 0 < count) }
    ensures taken { IfSome result (λ count. Takes (W.contents writer.old) (W.contents writer.new) (take count from.now)) }
    ensures part { result ≡ None → TakesPrefix (W.contents writer.old) (W.contents writer.new) from.now }
{
    let count = write_some(writer, from)?;
    if count == 0 && !from.is_empty() {
        return None;
    }
    writer.flush().ok()?;
    Some(count)
}

// Writes once, and again where a signal interrupted it.
fn write_some<W: Write>(writer: &mut W, from: &[u8]) -> Option<usize>
    ensures within { IfSome result (λ count. count ≤ length from.now) }
    ensures taken { IfSome result (λ count. Takes (W.contents writer.old) (W.contents writer.new) (take count from.now)) }
    ensures none { result ≡ None → Takes (W.contents writer.old) (W.contents writer.new) [] }
{
    for _ in 0..TRIES {
        match writer.write(from) {
            Ok(count) => return Some(count),
            Err(error) => {
                if error.kind() != ErrorKind::Interrupted {
                    return None;
                }
            }
        }
    }
    None
}
