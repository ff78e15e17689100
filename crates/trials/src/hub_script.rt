//! A schedule under test: the lines of its events, and the lines of what a hub gives at them.
ghost use Rattle.std.specs.Prelude.{◌≡◌, ◌<◌};

use crate::script::{add_answer, lines_of};
use hub_core::{Hub, HubEvent, HubOut, HubOuts, are_hub_defs};
use room_like::RoomLike;
use schedule_text::{print_out, read_event, read_schedule};
use schema_model::is_id;
use std::alloc::Global;
use std::marker::Brand;
use std::process::Abort;
use std::sync::ledger::{Blank, Ledger};
use std::test::Fail;
use steps::Steps;
use text_model::Schedule;

// Answers longer than this, in bytes, are told by their first word and how long they are. No heading is longer.
const LONG: usize = 1024;

// ---- events

// A text in which `(x*3)` stands for what is before the star, so many times.
fn unfolded(alloc: Global, text: &str) -> Result<String, Fail> {
    let Some((before, rest)) = text.split_once('(') else {
        return Ok(String::from_str(alloc, text)?);
    };
    let (folded, behind) = rest.split_once(')').ok_or("no end of what repeats")?;
    let (unit, times) = folded.split_once('*').ok_or("no number of times")?;
    let unit = unit.repeat(alloc, times.parse::<usize>()?)?;
    Ok(format!(in alloc; "{before}{unit}{behind}")?)
}

fn event_of(alloc: Global, text: &str) -> Result<HubEvent, Fail> {
    let line = unfolded(alloc, text)?;
    Ok(read_event(alloc, line.as_bytes())?)
}

// ---- what is given

// The line of an output, without its end.
fn out_text(alloc: Global, out: &HubOut) -> Result<String, Fail> {
    let mut line = Vec::new(alloc);
    print_out(&mut line, out)?;
    line.pop();
    match String::from_utf8(line) {
        Ok(line) => Ok(line),
        Err(_) => Err(Fail::new("no text")),
    }
}

// Adds the lines of outputs to the answers.
fn tell(alloc: Global, outs: &HubOuts, answers: &mut String) -> Result<(), Fail> {
    for out in outs.as_slice() {
        add_answer(answers, &out_text(alloc, out)?)?;
    }
    Ok(())
}

// Adds the lines of refusals to the answers.
fn tell_refusals(alloc: Global, outs: &HubOuts, answers: &mut String) -> Result<(), Fail> {
    for out in outs.as_slice() {
        if matches!(out, HubOut::Refused(_)) {
            add_answer(answers, &out_text(alloc, out)?)?;
        }
    }
    Ok(())
}

// What the hub gives at an event.
fn give<R: RoomLike, L: Ledger>(
    hub: &mut Hub<R>,
    event: &HubEvent,
    steps: &mut Steps<L>,
) -> Result<HubOuts, Fail> {
    if !hub.takes(event) {
        return Err(Fail::new("the hub doesn't take it"));
    }
    Ok(hub.step(event, steps)?)
}

// What a hub gives at events.
fn given<R: RoomLike, L: Ledger>(
    alloc: Global,
    hub: &mut Hub<R>,
    line: &str,
    steps: &mut Steps<L>,
) -> Result<String, Fail> {
    let mut answers = String::new(alloc);
    for text in line.split("; ") {
        let outs = give(hub, &event_of(alloc, text)?, steps)?;
        tell(alloc, &outs, &mut answers)?;
    }
    Ok(answers)
}

// The refusals that a hub gives at an event that comes so many times.
fn refused_in_turn<R: RoomLike, L: Ledger>(
    alloc: Global,
    hub: &mut Hub<R>,
    (first, last): (u32, u32),
    text: &str,
    steps: &mut Steps<L>,
) -> Result<String, Fail> {
    let mut answers = String::new(alloc);
    let event = event_of(alloc, text)?;
    for _ in first..=last {
        let outs = give(hub, &event, steps)?;
        tell_refusals(alloc, &outs, &mut answers)?;
    }
    Ok(answers)
}

// Adds the refusals that a hub gives at events.
fn add_refusals<R: RoomLike, L: Ledger>(
    alloc: Global,
    hub: &mut Hub<R>,
    line: &str,
    steps: &mut Steps<L>,
    answers: &mut String,
) -> Result<(), Fail> {
    for text in line.split("; ") {
        let outs = give(hub, &event_of(alloc, text)?, steps)?;
        tell_refusals(alloc, &outs, answers)?;
    }
    Ok(())
}

// The refusals that a hub gives at events that come for each number, which stands in the place of `$`.
fn refused_by_number<R: RoomLike, L: Ledger>(
    alloc: Global,
    hub: &mut Hub<R>,
    (first, last): (u32, u32),
    line: &str,
    steps: &mut Steps<L>,
) -> Result<String, Fail> {
    let mut answers = String::new(alloc);
    for number in first..=last {
        let number = format!(in alloc; "{number}")?;
        let line = line.replace(alloc, '$', &number)?;
        add_refusals(alloc, hub, &line, steps, &mut answers)?;
    }
    Ok(answers)
}

// What a hub gives at a line: events; or, with `1 to 64: ` before them, an event that comes so often, or events with `$` that
// come for each of these numbers.
fn answer<R: RoomLike, L: Ledger>(
    alloc: Global,
    hub: &mut Hub<R>,
    line: &str,
    steps: &mut Steps<L>,
) -> Result<String, Fail> {
    let Some((numbers, text)) = line.split_once(": ") else {
        return given(alloc, hub, line, steps);
    };
    let (first, last) = numbers.split_once(" to ").ok_or("no numbers")?;
    let numbers = (first.parse::<u32>()?, last.parse::<u32>()?);
    if text.contains('$') {
        return refused_by_number(alloc, hub, numbers, text, steps);
    }
    refused_in_turn(alloc, hub, numbers, text, steps)
}

// An answer as scripts have it.
fn shortened(alloc: Global, answer: String) -> Result<String, Fail> {
    if answer.len() <= LONG {
        return Ok(answer);
    }
    let (word, _) = answer.split_once(' ').ok_or("one long word")?;
    Ok(format!(in alloc; "{word}.. {} bytes", answer.len())?)
}

fn play_all<R: RoomLike, L: Ledger>(
    rt: &impl Abort,
    alloc: Global,
    hub: &mut Hub<R>,
    lines: &[(&str, &str)],
    blank: Blank,
) -> Result<String, Fail>
    requires name { blank.name ≡ L.name }
    requires parts { blank.parts ≡ L.parts }
    requires some { 0 < blank.parts }
{
    let mut steps = Steps::<L>::new(blank);
    let mut answers = String::new(alloc);
    for (line, expected) in lines {
        let found = shortened(alloc, answer(alloc, hub, line, &mut steps)?)?;
        assert_eq!(rt; found.as_str(), *expected, "{line}");
        add_answer(&mut answers, &found)?;
    }
    Ok(answers)
}

// A hub before its events, of what a schedule says before them.
fn new_hub<R: RoomLike>(alloc: Global, heading: &str) -> Result<Hub<R>, Fail> {
    let text = format!(in alloc; "{heading}events\nend\n")?;
    if text.len() > LONG {
        return Err(Fail::new("a long heading"));
    }
    let Schedule {
        schema,
        process,
        defs,
        events: _,
    } = read_schedule(alloc, text.as_bytes())?;
    if !are_hub_defs(defs.as_slice()) || !is_id(process) {
        return Err(Fail::new("no hub is made of it"));
    }
    Ok(Hub::new(alloc, schema, process, defs)?)
}

/// Whether a hub gives what a script says; what it gave at all lines. Behind a line `1 to 64: ..` stand refusals alone.
pub fn play<R: RoomLike>(
    rt: &impl Abort,
    alloc: Global,
    heading: &str,
    script: &str,
) -> Result<String, Fail> {
    let mut hub = new_hub::<R>(alloc, heading)?;
    let lines = lines_of(alloc, script)?;
    play_all::<R, Brand>(rt, alloc, &mut hub, &lines, Blank::new(1))
}
