//! What is counted of a schedule's run.
ghost use Rattle.std.specs.Prelude.{◌≡◌, ◌+◌, ◌++◌, ◌<◌, false, true, length, filter, IfOk, OnOk};
ghost use Rattle.std.specs.List.{list_all};
ghost use Rattle.hub_core.specs.Held.{may_take};
ghost use Rattle.hub_model.specs.HubStep.{hub_after, outs_from};
ghost use Rattle.text_model.specs.Marks.{line};
ghost use Rattle.room_server.specs.Replays.{CanReplay};
ghost use Rattle.room_server.specs.Summaries.{counted, counts_text, is_tick, live_in, no_outs, run_text, summary_text, with_out, with_outs};
ghost use Rattle.room_server.specs.Turns.{rules};

use hub_core::Hub;
use hub_model::{Events, HubEvent, HubOut, HubOuts};
use lists::Memory;
use room_core::Room;
use schedule_text::print_end;
use std::alloc::Global;
use std::marker::Brand;
use std::sync::ledger::{Blank, Ledger};
use steps::Steps;
use text_model::Schedule;

/// How many outputs are refusals, how many are frames that are sent, and how many bytes those have.
#[derive(Clone, Copy, Debug, PartialEq, Eq)]
pub struct Tally {
    pub refused: u64,
    pub sends: u64,
    pub bytes: u64,
}

// A sum. One past 2^64 - 1 is answered as out of memory.
fn sum(a: u64, b: u64) -> Result<u64, Memory>
    ensures { IfOk result (λ n. n ≡ a + b) }
{
    a.checked_add(b).ok_or(Memory)
}

impl Tally {
    /// Of no outputs.
    fn new() -> Tally
        ensures { result ≡ no_outs }
    {
        Tally {
            refused: 0,
            sends: 0,
            bytes: 0,
        }
    }

    /// With one more.
    fn with_out(self, out: &HubOut) -> Result<Tally, Memory>
        ensures { IfOk result (λ t. t ≡ with_out self out.now) }
    {
        let Tally {
            refused,
            sends,
            bytes,
        } = self;
        match out {
            HubOut::Refused(_) => Ok(Tally {
                refused: sum(refused, 1)?,
                sends,
                bytes,
            }),
            HubOut::Send(_, frame) => Ok(Tally {
                refused,
                sends: sum(sends, 1)?,
                bytes: sum(bytes, frame.len() as u64)?,
            }),
            _ => Ok(self),
        }
    }

    /// With more.
    fn with_outs(self, outs: &HubOuts) -> Result<Tally, Memory>
        ensures { IfOk result (λ t. t ≡ with_outs self outs.now) }
    {
        let mut tally = self;
        for out in outs.as_slice() {
            tally = tally.with_out(out)?;
        }
        Ok(tally)
    }
}

// Has a hub take events one after another, and counts what they give.
fn tally_events<L: Ledger>(
    hub: &mut Hub<Room>,
    events: Events,
    blank: Blank,
) -> Result<Tally, Memory>
    requires name { blank.name ≡ L.name }
    requires parts { blank.parts ≡ L.parts }
    requires some { 0 < blank.parts }
    requires may { list_all may_take events ≡ true }
    requires fresh { hub.old.spent ≡ false }
    ensures tally { IfOk result (λ t. t ≡ with_outs no_outs (outs_from rules hub.old.hub events)) }
    ensures hub { OnOk result (hub.new ≡ record { hub = hub_after rules hub.old.hub events; spent = false }) }
{
    let mut steps = Steps::<L>::new(blank);
    let mut tally = Tally::new();
    for event in events.into_vec() {
        let outs = hub.take(event, &mut steps)?;
        tally = tally.with_outs(&outs)?;
    }
    Ok(tally)
}

// How many sessions of a hub's rooms are live.
fn live_in(hub: &Hub<Room>) -> Result<u64, Memory>
    ensures { IfOk result (λ n. n ≡ live_in hub.now.hub.rooms) }
{
    let mut live = 0;
    let mut at = 0;
    while let Some(room) = hub.room_at(at) {
        live = sum(live, u64::from(room.live_count()))?;
        at = at.checked_add(1).ok_or(Memory)?;
    }
    Ok(live)
}

fn is_tick(event: &HubEvent) -> bool
    ensures { result ≡ is_tick event.now }
{
    matches!(event, HubEvent::Tick { .. })
}

// How many events are ticks.
fn ticks_in(events: &[HubEvent]) -> usize
    ensures { result ≡ length (filter is_tick events.now) }
{
    let mut ticks = 0;
    for event in events {
        if is_tick(event) {
            ticks += 1;
        }
    }
    ticks
}

/// The summary of a schedule's run: how many events and ticks there are, how many sessions are live at the end, how many
/// outputs are refusals, how many are frames that are sent, and how many bytes those have.
pub fn summarize(alloc: Global, schedule: Schedule) -> Result<Vec<u8>, Memory>
    requires { CanReplay schedule }
    ensures { IfOk result (λ text. text.items ≡ summary_text schedule) }
{
    let Schedule {
        schema,
        process,
        defs,
        events,
    } = schedule;
    let mut hub = Hub::new(alloc, schema, process, defs)?;
    summarize_events(alloc, &mut hub, events)
}

// The same of a hub and its events.
fn summarize_events(alloc: Global, hub: &mut Hub<Room>, events: Events) -> Result<Vec<u8>, Memory>
    requires may { list_all may_take events ≡ true }
    requires fresh { hub.old.spent ≡ false }
    ensures { IfOk result (λ text. text.items ≡ run_text hub.old.hub events) }
{
    let count = events.len();
    let ticks = ticks_in(events.as_slice());
    let tally = tally_events::<Brand>(hub, events, Blank::new(1))?;
    let live = live_in(hub)?;
    counts_text(alloc, count, ticks, live, tally)
}

// The lines of counts.
fn counts_text(
    alloc: Global,
    events: usize,
    ticks: usize,
    live: u64,
    tally: Tally,
) -> Result<Vec<u8>, Memory>
    ensures { IfOk result (λ text. text.items ≡ counts_text events ticks live tally) }
{
    let mut text = Vec::new(alloc);
    push_count(&mut text, "events", events as u64)?;
    push_count(&mut text, "ticks", ticks as u64)?;
    push_count(&mut text, "live", live)?;
    push_count(&mut text, "refused", tally.refused)?;
    push_count(&mut text, "sends", tally.sends)?;
    push_count(&mut text, "bytes", tally.bytes)?;
    print_end(&mut text)?;
    Ok(text)
}

// Appends a line of a word and a number.
fn push_count(text: &mut Vec<u8>, word: &str, number: u64) -> Result<(), Memory>
    ensures { OnOk result (text.new.items ≡ text.old.items ++ line (counted word.now number)) }
{
    let alloc = *text.allocator();
    let line = format!(in alloc; "{word} {number}\n")?;
    text.extend_from_slice(line.as_bytes())?;
    Ok(())
}
