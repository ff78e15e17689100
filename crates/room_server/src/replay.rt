//! The command `replay`: runs a schedule and writes what it gives.
ghost use Rattle.std.specs.Prelude.{◌≡◌, ◌≤◌, ◌<◌, ◌^◌, ◌++◌, false, true, length};
ghost use Rattle.std.specs.List.{list_all};
ghost use Rattle.hub_core.specs.Held.{may_take};
ghost use Rattle.outside.specs.Faults.{Rose};
ghost use Rattle.text_model.specs.Schedules.{read_schedule_text};
ghost use Rattle.room_server.specs.Answers.{schedule_answer};
ghost use Rattle.room_server.specs.Endings.{EndsAs, HasWriteCause, Writes};
ghost use Rattle.room_server.specs.Replays.{CanReplay};
ghost use Rattle.room_server.specs.Turns.{end_line, printed, start, outs_text};
ghost use Rattle.room_server.specs.declared.ending.Ending.TheVariants as ending;

use crate::ending::Ending;
use crate::output::{WriteFault, write_end, write_outs, write_refusal, write_schema};
use crate::reading::{ended, part_word};
use hub_core::Hub;
use hub_model::Events;
use outside::Sink;
use room_core::Room;
use schedule_text::read_schedule;
use std::alloc::Global;
use std::marker::Brand;
use std::sync::ledger::{Blank, Ledger};
use steps::Steps;
use text_model::{Schedule, ScheduleFault};

/// Writes what a text gives as a schedule, or the line of its first fault.
pub fn replay_text<K: Sink>(alloc: Global, text: &[u8], sink: &mut K) -> Ending
    requires short { length text.now ≤ 2 ^ 24 }
    ensures ends { EndsAs (schedule_answer (read_schedule_text text.now)) (K.taken sink.old) (K.taken sink.new) result }
    ensures later { K.faults sink.old ≤ K.faults sink.new }
    ensures cause { result ≡ ending.WriteFailed → Rose (K.faults sink.old) (K.faults sink.new) }
    ensures quiet { (result ≡ ending.WriteFailed → ⊥) → K.faults sink.new ≡ K.faults sink.old }
{
    match read_schedule(alloc, text) {
        Ok(schedule) => ended(replay(alloc, schedule, sink), Ending::Done),
        Err(ScheduleFault::Line(number, part)) => {
            let word = part_word(part);
            ended(write_refusal(alloc, sink, number, word), Ending::Refused)
        }
        Err(ScheduleFault::Memory) => Ending::Memory,
    }
}

/// Runs a schedule, and writes the schema lines, the outputs event by event, and `end`.
fn replay<K: Sink>(alloc: Global, schedule: Schedule, sink: &mut K) -> Result<(), WriteFault>
    requires { CanReplay schedule }
    ensures writes { Writes (K.taken sink.old) (K.taken sink.new) (printed schedule) result }
    ensures cause { HasWriteCause (K.faults sink.old) (K.faults sink.new) result }
{
    write_schema(alloc, sink, &schedule.schema)?;
    replay_whole(alloc, schedule, sink)
}

/// Runs the events of a schedule, and writes their outputs and `end`.
fn replay_whole<K: Sink>(alloc: Global, schedule: Schedule, sink: &mut K) -> Result<(), WriteFault>
    requires { CanReplay schedule }
    ensures writes { Writes (K.taken sink.old) (K.taken sink.new) (outs_text (start schedule) schedule.events ++ end_line) result }
    ensures cause { HasWriteCause (K.faults sink.old) (K.faults sink.new) result }
{
    let Schedule {
        schema,
        process,
        defs,
        events,
    } = schedule;
    let mut hub = Hub::new(alloc, schema, process, defs)?;
    replay_events::<K, Brand>(alloc, &mut hub, events, sink, Blank::new(1))?;
    write_end(alloc, sink)
}

/// Has a hub take events one after another, and writes what each gives before the next.
fn replay_events<K: Sink, L: Ledger>(
    alloc: Global,
    hub: &mut Hub<Room>,
    events: Events,
    sink: &mut K,
    blank: Blank,
) -> Result<(), WriteFault>
    requires name { blank.name ≡ L.name }
    requires parts { blank.parts ≡ L.parts }
    requires some { 0 < blank.parts }
    requires may { list_all may_take events ≡ true }
    requires fresh { hub.old.spent ≡ false }
    ensures writes { Writes (K.taken sink.old) (K.taken sink.new) (outs_text hub.old.hub events) result }
    ensures cause { HasWriteCause (K.faults sink.old) (K.faults sink.new) result }
{
    let mut steps = Steps::<L>::new(blank);
    for event in events.into_vec() {
        let outs = hub.take(event, &mut steps)?;
        write_outs(alloc, sink, &outs)?;
    }
    Ok(())
}
