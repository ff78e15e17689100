ghost use Rattle.std.specs.Prelude.{◌≡◌, ◌++◌, ◌<◌, [], length, take, IfOk, IsErr, OnErr, IsTrue, Some, is_err};
ghost use Rattle.outside.specs.Calls.{no_calls, next_fails, after_call};
ghost use Rattle.outside.specs.Faults.{HasCause};
ghost use Rattle.outside.specs.MemStreams.{taken_count};
ghost use Rattle.outside.specs.Streams.{TakesPrefix, count_of};

use crate::call_plan::CallPlan;
use crate::fault::Failed;
use crate::sink::Sink;
use std::alloc::Global;
use std::marker::Model;

/// A sink that keeps its bytes in memory. Calls of `write` are counted from 1, and those with given
/// numbers fail. A call that finds no memory fails too: it takes nothing, and its fault is counted.
#[derive(Drop)]
pub struct MemSink {
    taken: Vec<u8>,
    piece: usize,
    calls: CallPlan,
}

impl Model for MemSink {
    ghost use Rattle.std.specs.Prelude.{◌<◌};
    ghost use Rattle.outside.specs.MemStreams.{SinkState};

    ghost Value = { SinkState };

    ghost view = { λ s. record { taken = s.taken.items; piece = s.piece; calls = s.calls } };

    ghost invariant = { λ s. 0 < s.piece };
}

impl MemSink {
    /// An empty sink, with the numbers of the calls that are to fail. It takes no memory yet.
    pub fn new(alloc: Global, failing: Vec<u64>) -> Self
        ensures taken { result.taken ≡ [] }
        ensures piece { result.piece ≡ usize.MAX }
        ensures calls { result.calls ≡ no_calls failing.items }
    {
        MemSink {
            taken: Vec::new(alloc),
            piece: usize::MAX,
            calls: CallPlan::new(failing),
        }
    }

    /// The same sink, which takes at most so many bytes a call.
    pub fn with_piece(self, piece: usize) -> Self
        requires { 0 < piece }
        ensures { result ≡ record self { piece = piece } }
    {
        MemSink { piece, ..self }
    }

    /// The bytes that it has taken.
    pub fn taken(&self) -> &[u8]
        ensures { result.now ≡ self.now.taken }
    {
        self.taken.as_slice()
    }

    /// How often it has failed.
    pub fn faults(&self) -> u64
        ensures { result ≡ self.now.calls.faults }
    {
        self.calls.faults()
    }
}

impl Sink for MemSink {
    ghost faults = { λ s. s.calls.faults };

    ghost taken = { λ s. Some s.taken };

    #[tactic(auto, using(crate::proofs::CallLaws::counted_has_cause))]
    fn write(&mut self, from: &[u8]) -> Result<usize, Failed>
        ensures count { IfOk result (λ count. count ≡ taken_count self.old (length from.now)) }
        ensures some { IfOk result (λ count. 0 < length from.now → 0 < count) }
        ensures taken { self.new.taken ≡ self.old.taken ++ take (count_of result) from.now }
        ensures part { OnErr result (TakesPrefix (Some self.old.taken) (Some self.new.taken) from.now) }
        ensures cause { HasCause self.old.calls.faults self.new.calls.faults result }

        // Out of memory is a failure that no number tells.
        ensures fails { IsTrue (next_fails self.old.calls) → IsErr result }
        ensures calls { self.new.calls ≡ after_call self.old.calls (is_err result) }
        ensures piece { self.new.piece ≡ self.old.piece }
    {
        if self.calls.begins_failing() {
            return Err(Failed);
        }
        let count = self.piece.min(from.len());
        match self.taken.extend_from_slice(&from[..count]) {
            Ok(()) => Ok(count),
            Err(_) => {
                self.calls.count_fault();
                Err(Failed)
            }
        }
    }
}
