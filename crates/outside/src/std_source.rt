ghost use Rattle.std.specs.Prelude.{◌≡◌, ◌≤◌, length, IfOk, IfSome, None, OnErr};
ghost use Rattle.outside.specs.Faults.{HasCause};
ghost use Rattle.outside.specs.Streams.{Hands, Keeps};

use crate::fault::Failed;
use crate::source::Source;
use std::io::{ErrorKind, Read};
use std::marker::Model;

// How often a read that a signal interrupted is tried.
const TRIES: u32 = 1000;

/// A source over a reader of std, as `rt.reader()`. It shows of its bytes what the reader shows.
#[derive(Drop)]
pub struct StdSource<R> {
    reader: R,
    faults: u64,
}

impl<R> Model for StdSource<R> {
    ghost use Rattle.outside.specs.Adapters.{Adapter};

    ghost Value = { Adapter R };

    ghost view = { λ s. record { inside = s.reader; faults = s.faults } };
}

impl<R> StdSource<R> {
    /// Takes the reader over.
    pub fn new(reader: R) -> Self
        ensures { result ≡ record { inside = reader; faults = 0 } }
    {
        StdSource { reader, faults: 0 }
    }

    /// How often it has failed.
    pub fn faults(&self) -> u64
        ensures { result ≡ self.now.faults }
    {
        self.faults
    }
}

impl<R: Read> Source for StdSource<R> {
    ghost faults = { λ s. s.faults };

    ghost left = { λ s. R.remaining s.inside };

    fn read(&mut self, into: &mut [u8]) -> Result<usize, Failed> {
        match read_some(&mut self.reader, into) {
            Some(count) => Ok(count),
            None => {
                self.faults = self.faults.saturating_add(1);
                Err(Failed)
            }
        }
    }
}

// Reads once, and again where a signal interrupted it.
fn read_some<R: Read>(reader: &mut R, into: &mut [u8]) -> Option<usize>
    ensures within { IfSome result (λ count. count ≤ length into.old) }
    ensures bytes { IfSome result (λ count. IfSome (R.remaining reader.old) (λ bytes. Hands bytes (R.remaining reader.new) count into.new)) }
    ensures none { result ≡ None → Keeps (R.remaining reader.old) (R.remaining reader.new) }
{
    for _ in 0..TRIES {
        match reader.read(into) {
            Ok(count) => return Some(count),
            Err(error) => {
                if error.kind() != ErrorKind::Interrupted {
                    return None;
                }
            }
        }
    }
    None
}
