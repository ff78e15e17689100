//! The command `make`: runs a made schedule and writes its summary.
ghost use Rattle.std.specs.Prelude.{◌≡◌, ◌≤◌, IfOk};
ghost use Rattle.outside.specs.Faults.{Rose};
ghost use Rattle.load_maker.specs.Generated.{generated, most_rounds};
ghost use Rattle.room_server.specs.Answers.{make_answer};
ghost use Rattle.room_server.specs.Endings.{EndsAs};
ghost use Rattle.room_server.specs.Summaries.{summary_text};
ghost use Rattle.room_server.specs.declared.ending.Ending.TheVariants as ending;

use crate::ending::Ending;
use crate::output::write_text;
use crate::reading::ended;
use crate::summary::summarize;
use lists::Memory;
use load_maker::generate;
use outside::Sink;
use std::alloc::Global;

/// Runs the schedule of so many rounds that a seed makes, and writes its summary.
pub fn make<K: Sink>(alloc: Global, seed: u64, rounds: u32, sink: &mut K) -> Ending
    requires { rounds ≤ most_rounds }
    ensures ends { EndsAs (make_answer seed rounds) (K.taken sink.old) (K.taken sink.new) result }
    ensures later { K.faults sink.old ≤ K.faults sink.new }
    ensures cause { result ≡ ending.WriteFailed → Rose (K.faults sink.old) (K.faults sink.new) }
    ensures quiet { (result ≡ ending.WriteFailed → ⊥) → K.faults sink.new ≡ K.faults sink.old }
{
    match summary_of(alloc, seed, rounds) {
        Ok(text) => ended(write_text(sink, &text), Ending::Done),
        Err(_) => Ending::Memory,
    }
}

// The summary of a made schedule's run.
fn summary_of(alloc: Global, seed: u64, rounds: u32) -> Result<Vec<u8>, Memory>
    requires { rounds ≤ most_rounds }
    ensures { IfOk result (λ text. text.items ≡ summary_text (generated seed rounds)) }
{
    let schedule = generate(alloc, seed, rounds)?;
    summarize(alloc, schedule)
}
