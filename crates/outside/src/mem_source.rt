ghost use Rattle.std.specs.Prelude.{◌≡◌, ◌++◌, ◌<◌, length, min, take, drop, IfOk, OnErr, Some, is_err};
ghost use Rattle.outside.specs.Calls.{no_calls, GoesAsPlanned};
ghost use Rattle.outside.specs.Faults.{HasCause};
ghost use Rattle.outside.specs.MemStreams.{given_count};
ghost use Rattle.outside.specs.Streams.{Hands};

use crate::call_plan::CallPlan;
use crate::fault::Failed;
use crate::source::Source;
use std::marker::Model;

/// A source over bytes in memory. Calls of `read` are counted from 1, and those with given numbers fail.
#[derive(Drop)]
pub struct MemSource {
    bytes: Vec<u8>,
    at: usize,
    piece: usize,
    calls: CallPlan,
}

impl Model for MemSource {
    ghost use Rattle.std.specs.Prelude.{◌<◌, ◌≤◌, drop, vec_len};
    ghost use Rattle.outside.specs.MemStreams.{SourceState};

    ghost Value = { SourceState };

    ghost view = { λ s. record { left = drop s.at s.bytes.items; piece = s.piece; calls = s.calls } };

    ghost invariant = { λ s. (s.at ≤ vec_len s.bytes) × (0 < s.piece) };
}

impl MemSource {
    /// Over these bytes, with the numbers of the calls that are to fail. It takes no memory.
    pub fn new(bytes: Vec<u8>, failing: Vec<u64>) -> Self
        ensures left { result.left ≡ bytes.items }
        ensures piece { result.piece ≡ usize.MAX }
        ensures calls { result.calls ≡ no_calls failing.items }
    {
        MemSource {
            bytes,
            at: 0,
            piece: usize::MAX,
            calls: CallPlan::new(failing),
        }
    }

    /// The same source, which gives at most so many bytes a call.
    pub fn with_piece(self, piece: usize) -> Self
        requires { 0 < piece }
        ensures { result ≡ record self { piece = piece } }
    {
        MemSource { piece, ..self }
    }

    /// The bytes that it has left.
    pub fn left(&self) -> &[u8]
        ensures { result.now ≡ self.now.left }
    {
        &self.bytes[self.at..]
    }

    /// How often it has failed.
    pub fn faults(&self) -> u64
        ensures { result ≡ self.now.calls.faults }
    {
        self.calls.faults()
    }
}

impl Source for MemSource {
    ghost faults = { λ s. s.calls.faults };

    ghost left = { λ s. Some s.left };

    #[tactic(auto, using(crate::proofs::CallLaws::counted_has_cause, crate::proofs::StreamLaws::copied_hands))]
    fn read(&mut self, into: &mut [u8]) -> Result<usize, Failed>
        ensures count { IfOk result (λ count. count ≡ given_count self.old (length into.old)) }
        ensures bytes { IfOk result (λ count. Hands self.old.left (Some self.new.left) count into.new) }
        ensures err { OnErr result (self.new.left ≡ self.old.left) }
        ensures cause { HasCause self.old.calls.faults self.new.calls.faults result }
        ensures calls { GoesAsPlanned self.old.calls self.new.calls (is_err result) }
        ensures piece { self.new.piece ≡ self.old.piece }
    {
        if self.calls.begins_failing() {
            return Err(Failed);
        }
        let most = self.piece;
        let count = copy_prefix(self.left(), into, most);
        self.at += count;
        Ok(count)
    }
}

// Copies as many bytes as both have, and at most so many, and answers how many.
fn copy_prefix(from: &[u8], into: &mut [u8], most: usize) -> usize
    ensures count { result ≡ min most (min (length into.old) (length from.now)) }
    ensures bytes { into.new ≡ take result from.now ++ drop result into.old }
{
    let count = most.min(into.len()).min(from.len());
    into[..count].copy_from_slice(&from[..count]);
    count
}
