//! What a replay writes, event by event, and the replay of a made schedule's text.
use crate::tests::{
    ACKNOWLEDGE, ASK, HEAD, OPEN, PUT, SCHEMA, TICK, answers, joined, replays, status_of,
};
use lists::Memory;
use load_maker::generate;
use outside::{MemSink, MemSource};
use schedule_text::{print_end, write_definitions, write_event};
use std::alloc::{AllocError, Global};
use std::test::Fail;

// ---- each event's outputs before the next event

// Twenty outputs: events, and what each gives.
const TURNS: [(&str, &str); 19] = [
    (
        ASK,
        "created room00001 duel\nreply 1 {\"room\":{\"clients\":1,\"maxClients\":4,\"name\":\"duel\",\"processId\":\"proc00001\",\"roomId\":\"room00001\"},\"sessionId\":\"sess00001\"}\n",
    ),
    (
        OPEN,
        "joined room00001 sess00001\nsend 2 0a09746f6b656e3030303106736368656d61\n",
    ),
    (
        "frame 2 0da3686974\n",
        "message room00001 sess00001 'hit -\n",
    ),
    (
        "frame 2 63\n",
        "send 2 0bcd7910af696e76616c6964207061796c6f6164\n",
    ),
    (ACKNOWLEDGE, ""),
    (PUT, ""),
    ("act room00001 put 0 3 5\n", "refused no-field\n"),
    (TICK, "send 2 0e8005\n"),
    ("act room00001 make 0\n", "made room00001 1\n"),
    (
        "act room00001 send sess00001 'hi c0\n",
        "send 2 0da26869c0\n",
    ),
    ("act room00001 put 0 0 6\n", ""),
    (TICK, "send 2 0f0006\n"),
    (TICK, ""),
    ("tick room00009\n", "refused no-room\n"),
    ("frame 9 0a\n", "refused no-conn\n"),
    ("bad 4\n", "close 4 1002\n"),
    (
        "open 3 / token0003\n",
        "send 3 0bcd7410ac6e6f207375636820726f6f6d\nclose 3 4002\n",
    ),
    ("frame 2 110500\n", "rawmessage room00001 sess00001 5 00\n"),
    (
        "frame 2 0c\n",
        "close 2 4000\nleft room00001 sess00001\ndisposed room00001\n",
    ),
];

// The schedule of these events.
fn turns_text(alloc: Global) -> Result<Vec<u8>, AllocError> {
    let mut text = joined(alloc, &[HEAD])?;
    for (event, _) in TURNS {
        text.extend_from_slice(event.as_bytes())?;
    }
    text.extend_from_slice(b"end\n")?;
    Ok(text)
}

// What the calls of the sink are given in turn: the schema, what each event gives that gives anything, and the end.
fn turns_written(alloc: Global) -> Result<Vec<&'static str>, AllocError> {
    let mut written = Vec::new(alloc);
    written.push(SCHEMA)?;
    for (_, outs) in TURNS {
        if !outs.is_empty() {
            written.push(outs)?;
        }
    }
    written.push("end\n")?;
    Ok(written)
}

// Whether the replay stops where a call of the sink fails, with this in it.
fn stops_at(alloc: Global, call: u64, taken: &[u8]) -> Result<bool, Memory> {
    let mut source = MemSource::new(turns_text(alloc)?, Vec::new(alloc));
    let mut sink = MemSink::new(alloc, Vec::from_slice(alloc, &[call])?);
    let given = status_of(alloc, &["replay"], &mut source, &mut sink)?;
    Ok(given == 5 && sink.taken() == taken)
}

// What stands in a sink before it fails are the outputs of the events before, at each call.
#[test]
fn writes_event_by_event(rt: HostRuntime) -> Result<(), Fail> {
    let alloc = rt.alloc();
    let written = turns_written(alloc)?;
    let written = written.as_slice();
    for at in 0..written.len() {
        let before = joined(alloc, &written[..at])?;
        assert!(rt; stops_at(alloc, at as u64 + 1, &before)?, "{at}");
    }
    let whole = joined(alloc, written)?;
    assert!(rt; replays(alloc, turns_text(alloc)?, 0, &whole)?);
    Ok(())
}

// ---- the text of a made schedule

// A schedule of three rounds, as its writers write it.
fn made_text(alloc: Global) -> Result<Vec<u8>, Memory> {
    let schedule = generate(alloc, 1, 3)?;
    let mut text = Vec::new(alloc);
    write_definitions(&mut text, &schedule)?;
    text.extend_from_slice(b"events\n")?;
    for event in schedule.events.as_slice() {
        write_event(&mut text, event)?;
    }
    print_end(&mut text)?;
    Ok(text)
}

// The lines that begin with a word.
fn count_of(text: &str, word: &str) -> usize {
    text.lines().filter(|line| line.starts_with(word)).count()
}

// The frames of all lines `send 2 0e8005`, in hex.
fn frames_in(alloc: Global, output: &str) -> Result<String, Fail> {
    let mut frames = String::new(alloc);
    for line in output.lines() {
        if let Some(sent) = line.strip_prefix("send ") {
            let (_, hex) = sent.split_once(' ').ok_or("no frame")?;
            frames.push_str(hex)?;
        }
    }
    Ok(frames)
}

// The summary of a replay, counted in its text and in what it wrote. Eight clients are live at its end.
fn summary_of(alloc: Global, text: &str, output: &str) -> Result<String, Fail> {
    let (_, events) = text.split_once("\nevents\n").ok_or("no events")?;
    let events = events.strip_suffix("end\n").ok_or("no end")?;
    let frames = frames_in(alloc, output)?;
    Ok(format!(in alloc;
        "events {}\nticks {}\nlive 8\nrefused {}\nsends {}\nbytes {}\nend\n",
        events.lines().count(),
        count_of(events, "tick "),
        count_of(output, "refused "),
        count_of(output, "send "),
        frames.len() / 2,
    )?)
}

// The text of a made schedule replays, and what is counted of it is what `make` counts.
#[test]
fn replays_a_made_schedule(rt: HostRuntime) -> Result<(), Fail> {
    let alloc = rt.alloc();
    let text = made_text(alloc)?;
    let text = std::str::from_utf8(&text)?;
    let mut source = MemSource::new(joined(alloc, &[text])?, Vec::new(alloc));
    let mut sink = MemSink::new(alloc, Vec::new(alloc));
    assert_eq!(rt; status_of(alloc, &["replay"], &mut source, &mut sink)?, 0);
    let output = std::str::from_utf8(sink.taken())?;
    let summary = summary_of(alloc, text, output)?;
    let words = ["make", "1", "3"];
    assert!(rt; answers(alloc, &words, Vec::new(alloc), 0, summary.as_bytes())?);
    Ok(())
}
