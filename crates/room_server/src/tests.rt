use crate::games::{BOARD, DUEL, FULL, HANDS, RETURNS};
use crate::run::run;
use lists::{Memory, Seq, Text};
use outside::{ListClock, ListIds, MemSink, MemSource, MemWire};
use room_model::Words;
use schema_model::Id;
use std::alloc::{AllocError, Global};
use std::test::Fail;

/// The schema of most schedules here.
pub const SCHEMA: &str =
    "class State\nfield x number\nfield name string\nfield ok boolean\nroot State\n";

/// What stands before their events.
pub const HEAD: &str =
    "class State\nfield x number\nfield name string\nfield ok boolean\nroot State\n\
    process proc00001\nroom duel max 4 seat 15000 patch 50 keep 0\nevents\nat 0\n";

pub const ASK: &str = "ask 1 /matchmake/joinOrCreate/duel {} room00001 sess00001\n";

pub const OPEN: &str = "open 2 /proc00001/room00001?sessionId=sess00001 token0001\n";

pub const ACKNOWLEDGE: &str = "frame 2 0a\n";

pub const PUT: &str = "act room00001 put 0 0 5\n";

pub const TICK: &str = "tick room00001\n";

// What they give up to the first tick.
const JOINED: &str =
    "class State\nfield x number\nfield name string\nfield ok boolean\nroot State\n\
    created room00001 duel\nreply 1 {\"room\":{\"clients\":1,\"maxClients\":4,\"name\":\"duel\",\"processId\":\"proc00001\",\
    \"roomId\":\"room00001\"},\"sessionId\":\"sess00001\"}\njoined room00001 sess00001\n\
    send 2 0a09746f6b656e3030303106736368656d61\n";

const USAGE: &str = "usage: replay | serve PORT COUNT | view CONN | make SEED ROUNDS\n";

/// Texts one behind the other.
pub fn joined(alloc: Global, parts: &[&str]) -> Result<Vec<u8>, AllocError> {
    let mut text = Vec::new(alloc);
    for part in parts {
        text.extend_from_slice(part.as_bytes())?;
    }
    Ok(text)
}

fn words_of(alloc: Global, words: &[&str]) -> Result<Words, Memory> {
    let mut all = Seq::new(alloc);
    for word in words {
        all.push(Text::from_text(alloc, word)?)?;
    }
    Ok(all)
}

/// The status of a run over things in memory; what was written is in the sink.
pub fn status_of(
    alloc: Global,
    words: &[&str],
    source: &mut MemSource,
    sink: &mut MemSink,
) -> Result<u8, Memory> {
    let words = words_of(alloc, words)?;
    let mut wire = MemWire::new(alloc, Vec::new(alloc), Vec::new(alloc));
    let mut clock = ListClock::new(0, Vec::new(alloc));
    let mut ids = ListIds::new(Id([b'-'; 9]), Vec::new(alloc));
    Ok(run(alloc, &words, source, sink, &mut wire, &mut clock, &mut ids))
}

/// Whether the replay of a text ends with a status and writes this.
pub fn replays(alloc: Global, text: Vec<u8>, status: u8, output: &[u8]) -> Result<bool, Memory> {
    let mut source = MemSource::new(text, Vec::new(alloc));
    let mut sink = MemSink::new(alloc, Vec::new(alloc));
    let given = status_of(alloc, &["replay"], &mut source, &mut sink)?;
    Ok(given == status && sink.taken() == output)
}

#[test]
fn gives_the_first_frames(rt: HostRuntime) -> Result<(), Fail> {
    let alloc = rt.alloc();
    let rows: [(&[&str], &[&str]); 5] = [
        (
            &[HEAD, ASK, OPEN, ACKNOWLEDGE, PUT, TICK, "end\n"],
            &[JOINED, "send 2 0e8005\nend\n"],
        ),
        // What changed since the last tick.
        (
            &[
                HEAD,
                ASK,
                OPEN,
                ACKNOWLEDGE,
                PUT,
                TICK,
                "act room00001 put 0 0 6\n",
                TICK,
                "end\n",
            ],
            &[JOINED, "send 2 0e8005\nsend 2 0f0006\nend\n"],
        ),
        (
            &[
                HEAD,
                ASK,
                OPEN,
                ACKNOWLEDGE,
                "act room00001 put 0 0 -1\n",
                TICK,
                "end\n",
            ],
            &[JOINED, "send 2 0e80ff\nend\n"],
        ),
        // A full state goes out also where nothing is set.
        (
            &[HEAD, ASK, OPEN, ACKNOWLEDGE, TICK, "end\n"],
            &[JOINED, "send 2 0e\nend\n"],
        ),
        // A tick without a change gives no frame.
        (
            &[HEAD, ASK, OPEN, ACKNOWLEDGE, PUT, TICK, TICK, "end\n"],
            &[JOINED, "send 2 0e8005\nend\n"],
        ),
    ];
    for (text, output) in rows {
        let text = joined(alloc, text)?;
        let output = joined(alloc, output)?;
        assert!(rt; replays(alloc, text, 0, &output)?);
    }
    Ok(())
}

// The first line that can't stand where it stands, with the word of its part.
#[test]
fn names_the_first_fault(rt: HostRuntime) -> Result<(), Fail> {
    let alloc = rt.alloc();
    let rows: [(&[&str], &str); 32] = [
        (&[""], "line 1 end\n"),
        (&["\n"], "line 1 schema\n"),
        (&["class State\0\n"], "line 1 schema\n"),
        (&["class State\r\n"], "line 1 schema\n"),
        (&["class  State\n"], "line 1 schema\n"),
        (&["class State \n"], "line 1 schema\n"),
        (&["class State"], "line 1 schema\n"),
        (
            &["class State\nfield x number\nroot State\n"],
            "line 4 end\n",
        ),
        (
            &["class State\nfield x float32\nroot State\n"],
            "line 2 schema\n",
        ),
        (
            &["class State\nfield x Card\nroot State\n"],
            "line 2 schema\n",
        ),
        // No line of a root comes.
        (&["class State\nfield x number\n"], "line 3 end\n"),
        (
            &["class State\nroot State\nprocess proc0001\n"],
            "line 3 process\n",
        ),
        (
            &["class State\nroot State\nprocess proc00001"],
            "line 3 process\n",
        ),
        (
            &["class State\nroot State\nprocess proc00001\nevents\n"],
            "line 4 room\n",
        ),
        (
            &[
                "class State\nroot State\nprocess proc00001\nroom duel max 65 seat 1 patch 1 keep 0\n",
            ],
            "line 4 room\n",
        ),
        (
            &[
                "class State\nroot State\nprocess proc00001\nroom duel max 1 seat 1 patch 1 keep 0\nroom duel max 1 seat 1 patch 1 keep 0\n",
            ],
            "line 5 room\n",
        ),
        (
            &[
                "class State\nroot State\nprocess proc00001\nroom duel max 1 seat 1 patch 1 keep 0\ntick room00001\n",
            ],
            "line 5 event\n",
        ),
        (&[HEAD, ASK, OPEN, ACKNOWLEDGE, PUT, TICK], "line 15 end\n"),
        (
            &[HEAD, ASK, OPEN, ACKNOWLEDGE, PUT, TICK, "end"],
            "line 15 event\n",
        ),
        (
            &[HEAD, ASK, OPEN, ACKNOWLEDGE, PUT, TICK, "end\n", TICK],
            "line 16 end\n",
        ),
        (
            &[HEAD, ASK, OPEN, ACKNOWLEDGE, PUT, TICK, "end\nx"],
            "line 16 end\n",
        ),
        (&[HEAD, "tick room00001\r\nend\n"], "line 10 event\n"),
        (&[HEAD, "tick  room00001\nend\n"], "line 10 event\n"),
        (
            &[
                HEAD,
                "at 18446744073709551615\nat 18446744073709551616\nend\n",
            ],
            "line 11 event\n",
        ),
        (&[HEAD, "at 07\nend\n"], "line 10 event\n"),
        (&[HEAD, "frame 2 0A\nend\n"], "line 10 event\n"),
        (
            &[
                HEAD,
                ASK,
                OPEN,
                ACKNOWLEDGE,
                "act room00001 put 0 0 5.5\n",
                TICK,
                "end\n",
            ],
            "line 13 event\n",
        ),
        (
            &[HEAD, "act room00001 put 0 256 5\nend\n"],
            "line 10 event\n",
        ),
        (
            &[HEAD, "act room00001 put 4294967296 0 5\nend\n"],
            "line 10 event\n",
        ),
        (
            &[HEAD, "act room00001 put 0 0 '%41\nend\n"],
            "line 10 event\n",
        ),
        (&[HEAD, "open 2 a%2D token0001\nend\n"], "line 10 event\n"),
        (
            &[HEAD, "act room00001 kick sess00001 3999\nend\n"],
            "line 10 event\n",
        ),
    ];
    for (text, output) in rows {
        assert!(rt;
            replays(alloc, joined(alloc, text)?, 3, output.as_bytes())?,
            "{output}"
        );
    }
    let bytes = Vec::from_slice(alloc, b"class \xff\xfe\n")?;
    assert!(rt; replays(alloc, bytes, 3, b"line 1 schema\n")?);
    Ok(())
}

/// Whether a command with words gives a status and writes this of a text.
pub fn answers(
    alloc: Global,
    words: &[&str],
    text: Vec<u8>,
    status: u8,
    output: &[u8],
) -> Result<bool, Memory> {
    let mut source = MemSource::new(text, Vec::new(alloc));
    let mut sink = MemSink::new(alloc, Vec::new(alloc));
    let given = status_of(alloc, words, &mut source, &mut sink)?;
    Ok(given == status && sink.taken() == output)
}

#[test]
fn replays_the_examples(rt: HostRuntime) -> Result<(), Fail> {
    let alloc = rt.alloc();
    for [schedule, output] in [DUEL, HANDS, FULL, RETURNS, BOARD] {
        let text = joined(alloc, &[schedule])?;
        assert!(rt; replays(alloc, text, 0, output.as_bytes())?, "{output}");
    }
    Ok(())
}

#[test]
fn views_what_each_client_sees(rt: HostRuntime) -> Result<(), Fail> {
    let alloc = rt.alloc();
    let rows = [
        (
            "11",
            "struct 0 0 0=#1\nmap 1 0.0 0:'a=#2 1:'b=#3\nstruct 2 1 0='ada 1=12\nstruct 3 1 0='bob\nend\n",
        ),
        (
            "12",
            "struct 0 0 0=#1\nmap 1 0.0 0:'a=#2 1:'b=#3\nstruct 2 1 0='ada\nstruct 3 1 0='bob 1=7\nend\n",
        ),
        // Nobody's connection has the root alone.
        ("9", "struct 0 0\nend\n"),
    ];
    for (conn, output) in rows {
        let [_, printed] = HANDS;
        let text = joined(alloc, &[printed])?;
        assert!(rt;
            answers(alloc, &["view", conn], text, 0, output.as_bytes())?,
            "{conn}"
        );
    }
    Ok(())
}

// What `view` makes of what a replay wrote, and of that with another frame at its end.
#[test]
fn views_what_a_replay_wrote(rt: HostRuntime) -> Result<(), Fail> {
    let alloc = rt.alloc();
    let text = joined(alloc, &[HEAD, ASK, OPEN, ACKNOWLEDGE, PUT, TICK, "end\n"])?;
    let written = joined(alloc, &[JOINED, "send 2 0e8005\nend\n"])?;
    assert!(rt; replays(alloc, text, 0, &written)?);
    let rows = [
        ("2", "send 2 0e8005\nend\n", 0, "struct 0 0 0=5\nend\n"),
        // Nobody's connection has the root alone.
        ("9", "send 2 0e8005\nend\n", 0, "struct 0 0\nend\n"),
        (
            "2",
            "send 2 0f8005\nend\n",
            3,
            "line 10 frame before-full\n",
        ),
        ("2", "send 2 0e80\nend\n", 3, "line 10 frame short 1\n"),
    ];
    for (conn, last, status, output) in rows {
        let text = joined(alloc, &[JOINED, last])?;
        assert!(rt;
            answers(alloc, &["view", conn], text, status, output.as_bytes())?,
            "{output}"
        );
    }
    Ok(())
}

const PRINTED: &str = "class State\nfield x number\nroot State\n";

#[test]
fn tells_the_frame_that_a_client_refuses(rt: HostRuntime) -> Result<(), Fail> {
    let alloc = rt.alloc();
    let rows: [(&[&str], u8, &str); 23] = [
        (
            &[PRINTED, "send 9 0e8005\nend\n"],
            0,
            "struct 0 0 0=5\nend\n",
        ),
        (&[PRINTED, "send 9 -\nend\n"], 3, "line 4 frame empty\n"),
        (
            &[PRINTED, "send 9 09\nend\n"],
            3,
            "line 4 frame unknown-code 9\n",
        ),
        (&[PRINTED, "send 9 0a\nend\n"], 3, "line 4 frame bad 1\n"),
        (
            &[PRINTED, "send 9 0f\nend\n"],
            3,
            "line 4 frame before-full\n",
        ),
        (
            &[PRINTED, "send 9 0e\nclose 9 4000\nsend 9 0f\nend\n"],
            3,
            "line 6 frame closed\n",
        ),
        (&[PRINTED, "close 9 4000\nend\n"], 0, "struct 0 0\nend\n"),
        (
            &[PRINTED, "send 9 0c\nsend 9 0f\nend\n"],
            3,
            "line 5 frame closed\n",
        ),
        (
            &[PRINTED, "send 9 0e80\nend\n"],
            3,
            "line 4 frame short 1\n",
        ),
        (
            &[PRINTED, "send 9 0e80ca00000000\nend\n"],
            3,
            "line 4 frame fractional 1\n",
        ),
        (
            &[PRINTED, "send 9 0e80ceffffffff\nend\n"],
            3,
            "line 4 frame too-wide 1\n",
        ),
        (
            &[PRINTED, "send 9 0e80c0\nend\n"],
            3,
            "line 4 frame bad-form 1\n",
        ),
        (
            &["class State\nfield x string\nroot State\nsend 9 0e80a1ff\nend\n"],
            3,
            "line 4 frame bad-text 1\n",
        ),
        (
            &[PRINTED, "send 9 0eff05\nend\n"],
            3,
            "line 4 frame unknown-ref 1\n",
        ),
        (
            &[PRINTED, "send 9 0e8105\nend\n"],
            3,
            "line 4 frame unknown-field 0\n",
        ),
        (
            &["class State\nfield c State\nroot State\nsend 9 0e8001d509\nend\n"],
            3,
            "line 4 frame unknown-type 3\n",
        ),
        (
            &["class State\nfield m map number\nroot State\nsend 9 0e8001ff0105\nend\n"],
            3,
            "line 4 frame unknown-op 4 5\n",
        ),
        // The frames of another connection aren't looked at.
        (&[PRINTED, "send 8 -\nend\n"], 0, "struct 0 0\nend\n"),
        // A line that is no output comes before any frame.
        (
            &[PRINTED, "send 9 -\nsent 9 0e\nend\n"],
            3,
            "line 5 output\n",
        ),
        (&[PRINTED, "send 9 0e"], 3, "line 4 output\n"),
        (&[PRINTED, "send 9 0e\n"], 3, "line 5 end\n"),
        (&["class State\n"], 3, "line 2 end\n"),
        (&["root State\n"], 3, "line 1 schema\n"),
    ];
    for (text, status, output) in rows {
        let text = joined(alloc, text)?;
        assert!(rt;
            answers(alloc, &["view", "9"], text, status, output.as_bytes())?,
            "{output}"
        );
    }
    let text = vec![in alloc; b'\n'; (1 << 24) + 1]?;
    assert!(rt; answers(alloc, &["view", "9"], text, 3, b"line 0 long\n")?);
    Ok(())
}

#[test]
fn makes_a_load(rt: HostRuntime) -> Result<(), Fail> {
    let alloc = rt.alloc();
    let rows = [
        (
            "0",
            "events 909\nticks 0\nlive 0\nrefused 0\nsends 8\nbytes 144\nend\n",
        ),
        // Three drops with returns.
        (
            "600",
            "events 14718\nticks 600\nlive 8\nrefused 0\nsends 4661\nbytes 596079\nend\n",
        ),
    ];
    for (rounds, output) in rows {
        let text = Vec::from_slice(alloc, b"not looked at")?;
        assert!(rt;
            answers(alloc, &["make", "1", rounds], text, 0, output.as_bytes())?,
            "{rounds}"
        );
    }
    Ok(())
}

#[test]
fn takes_long_texts(rt: HostRuntime) -> Result<(), Fail> {
    let alloc = rt.alloc();
    let mut text = joined(alloc, &[HEAD])?;
    for _ in 0..1_000_000 {
        text.extend_from_slice(b"at 7\n")?;
    }
    text.extend_from_slice(&joined(alloc, &[ASK, OPEN, ACKNOWLEDGE, PUT, TICK, "end\n"])?)?;
    let output = joined(alloc, &[JOINED, "send 2 0e8005\nend\n"])?;
    assert!(rt; replays(alloc, text, 0, &output)?);
    let text = vec![in alloc; b'\n'; (1 << 24) + 1]?;
    assert!(rt; replays(alloc, text, 3, b"line 0 long\n")?);
    let text = vec![in alloc; b'\n'; 1 << 24]?;
    assert!(rt; replays(alloc, text, 3, b"line 1 schema\n")?);
    Ok(())
}

#[test]
fn tells_what_failed(rt: HostRuntime) -> Result<(), Fail> {
    let alloc = rt.alloc();
    let text: &[&str] = &[HEAD, ASK, OPEN, ACKNOWLEDGE, PUT, TICK, "end\n"];
    let output = joined(alloc, &[JOINED, "send 2 0e8005\nend\n"])?;
    let schema = SCHEMA.len();
    // The reads and writes that fail, how much the sink takes a call, the status, and how many bytes of the output it took.
    let rows: [(&[u64], &[u64], usize, u8, usize); 6] = [
        (&[1], &[], usize::MAX, 4, 0),
        (&[2], &[], usize::MAX, 4, 0),
        (&[], &[1], usize::MAX, 5, 0),
        (&[], &[2], usize::MAX, 5, schema),
        (&[], &[40], 1, 5, 39),
        (&[], &[], 1, 0, output.len()),
    ];
    for (reads, writes, piece, status, taken) in rows {
        let mut source = MemSource::new(joined(alloc, text)?, Vec::from_slice(alloc, reads)?);
        let mut sink = MemSink::new(alloc, Vec::from_slice(alloc, writes)?).with_piece(piece);
        let given = status_of(alloc, &["replay"], &mut source, &mut sink)?;
        assert_eq!(rt; given, status);
        assert!(rt; taken <= output.len());
        assert!(rt;
            sink.taken() == &output[..taken],
            "{reads:?} {writes:?} {piece}"
        );
    }
    Ok(())
}

#[test]
fn tells_how_it_is_used(rt: HostRuntime) -> Result<(), Fail> {
    let alloc = rt.alloc();
    let rows: [&[&str]; 15] = [
        &[],
        &[""],
        &["replay", "now"],
        &["Replay"],
        &["serve", "0", "1"],
        &["view"],
        &["view", "02"],
        &["view", "-1"],
        &["view", "18446744073709551616"],
        &["view", "2", "3"],
        &["make", "1"],
        &["make", "1", "10001"],
        &["make", "18446744073709551616", "1"],
        &["make", "1", "+1"],
        &["make", "1", "1", "1"],
    ];
    for words in rows {
        let mut source = MemSource::new(Vec::new(alloc), Vec::new(alloc));
        let mut sink = MemSink::new(alloc, Vec::new(alloc));
        assert_eq!(rt; status_of(alloc, words, &mut source, &mut sink)?, 2);
        assert!(rt; sink.taken() == USAGE.as_bytes());
        let mut sink = MemSink::new(alloc, Vec::from_slice(alloc, &[1])?);
        assert_eq!(rt; status_of(alloc, words, &mut source, &mut sink)?, 5);
    }
    Ok(())
}
