use lists::{Memory, Rising, Seq, Text};
use schedule_text::{
    LineFault, print_out, print_rows, read_event, read_kind, read_plain, read_print, read_quoted,
    read_schedule, read_value, write_definitions, write_event,
};
use schema_model::{Home, RefNum, TypeNum, Value};
use state_model::{FieldValue, MapItem, Row, RowEntry, Rows, SetItem};
use std::alloc::{AllocError, Global};
use std::test::Fail;
use text_model::{ScheduleFault, Word};

const HEAD: [&str; 8] = [
    "class State",
    "field x number",
    "field deck map Card",
    "class Card : State",
    "field suit string view 3",
    "root State",
    "process proc00001",
    "room duel max 4 seat 15000 patch 50 keep 0 filter mode,map-1",
];

const EVENTS: [&str; 33] = [
    "at 0",
    "at 18446744073709551615",
    "ask 1 /matchmake/joinOrCreate/duel {} room00001 sess00001",
    "ask 1 - %2D room00001 sess00001",
    "bad 3",
    "open 2 /proc00001/room00001?sessionId=sess00001 token0001",
    "frame 2 0a",
    "frame 2 -",
    "drop 2",
    "tick room00001",
    "act room00001 make 0",
    "act room00001 makefor 0 1",
    "act room00001 put 0 1 -170141183460469231731687303715884105728",
    "act room00001 put 0 1 170141183460469231731687303715884105727",
    "act room00001 unset 0 255",
    "act room00001 putkey 0 ' '%25%20a",
    "act room00001 putkey 0 'key #4294967295",
    "act room00001 delkey 0 '",
    "act room00001 push 0 true",
    "act room00001 setat 0 4294967295 false",
    "act room00001 delat 0 0",
    "act room00001 add 1 7",
    "act room00001 del 1 '%C3%A4",
    "act room00001 clear 1",
    "act room00001 viewadd sess00001 1 -1",
    "act room00001 viewdel sess00001 1 255",
    "act room00001 send sess00001 'hi 00ff",
    "act room00001 raw sess00001 -2147483648 -",
    "act room00001 toall 2147483647 c0",
    "act room00001 kick sess00001 4999",
    "act room00001 lock",
    "act room00001 unlock",
    "act room00001 keep sess00001 3600000",
];

/// Lines that are no event's.
const NO_EVENTS: [&str; 62] = [
    "",
    "at",
    "at ",
    "at 00",
    "at 01",
    "at -1",
    "at +1",
    "at 1 ",
    " at 1",
    "at  1",
    "at 1\r",
    "AT 1",
    "at 18446744073709551616",
    "bad 1 2",
    "drop x",
    "tick room0001",
    "tick room000001",
    "tick room.0001",
    "frame 1",
    "frame 1 0",
    "frame 1 0A",
    "frame 1 --",
    "frame 1 0g",
    "frame 1 ",
    "open 1 /%2f token0001",
    "open 1 /%41 token0001",
    "open 1 %C3%28 token0001",
    "open 1 %2D/ token0001",
    "open 1  token0001",
    "open 1 / token001",
    "ask 1 / {} room00001",
    "ask 1 / {} room00001 sess00001 x",
    "ask 1 /\u{e4} {} room00001 sess00001",
    "act room00001",
    "act room00001 fly",
    "act room00001 lock 1",
    "act room00001 make",
    "act room00001 make 4294967296",
    "act room00001 makefor 0 256",
    "act room00001 put 0 1",
    "act room00001 put 0 1 -0",
    "act room00001 put 0 1 170141183460469231731687303715884105728",
    "act room00001 put 0 1 -170141183460469231731687303715884105729",
    "act room00001 put 0 1 #4294967296",
    "act room00001 put 0 1 #",
    "act room00001 put 0 1 True",
    "act room00001 put 0 1 fals",
    "act room00001 put 0 1 '%",
    "act room00001 put 0 1 '%20%2",
    "act room00001 putkey 0 key 1",
    "act room00001 viewadd sess00001 1 -2",
    "act room00001 viewadd sess00001 1 256",
    "act room00001 send sess00001 -2147483649 -",
    "act room00001 send sess00001 2147483648 -",
    "act room00001 send sess00001 hi -",
    "act room00001 kick sess00001 1001",
    "act room00001 kick sess00001 3999",
    "act room00001 kick sess00001 5000",
    "act room00001 kick sess00001 65536",
    "act room00001 keep sess00001 3600001",
    "act room00001 keep sess0000 1",
    "end",
];

const PRINTED: [&str; 16] = [
    "send 9 0dff",
    "send 9 -",
    "close 9 4000",
    "reply 1 {\"name\":\"a b\"}",
    "reply 1 ",
    "created room00001 duel",
    "joined room00001 sess00001",
    "returned room00001 sess00001",
    "message room00001 sess00001 'hi 00",
    "rawmessage room00001 sess00001 -5 -",
    "dropped room00001 sess00001",
    "left room00001 sess00001",
    "disposed room00001",
    "made room00001 4294967295",
    "refused no-room",
    "refused out-of-range",
];

/// Lines that are no output's.
const NO_OUTPUTS: [&str; 14] = [
    "",
    "send 9",
    "send 9 0",
    "close 9 65536",
    "reply 1",
    "reply x {}",
    "created room00001 a.b",
    "joined room00001",
    "message room00001 sess00001 hi 00",
    "made room00001 4294967296",
    "refused memory",
    "refused",
    "disposed room00001 ",
    "dropped room00001 sess00001\r",
];

/// The event of a line is written as that line.
fn same_line(alloc: Global, line: &str) -> Result<bool, LineFault> {
    let event = read_event(alloc, line.as_bytes())?;
    let mut out = Vec::new(alloc);
    write_event(&mut out, &event)?;
    Ok(out.strip_suffix(b"\n") == Some(line.as_bytes()))
}

#[test]
fn reads_and_writes_each_event(rt: HostRuntime) -> Result<(), Fail> {
    for line in EVENTS {
        let same = same_line(rt.alloc(), line);
        assert!(rt; same == Ok(true), "{line} {same:?}");
    }
    Ok(())
}

#[test]
fn refuses_other_lines(rt: HostRuntime) -> Result<(), Fail> {
    for line in NO_EVENTS {
        let fault = read_event(rt.alloc(), line.as_bytes()).err();
        assert!(rt; fault == Some(LineFault::NotOfForm), "{line} {fault:?}");
    }
    Ok(())
}

/// A text of lines.
fn text_of(alloc: Global, lines: &[&str]) -> Result<Vec<u8>, AllocError> {
    let mut text = Vec::new(alloc);
    for line in lines {
        text.extend_from_slice(line.as_bytes())?;
        text.extend_from_slice(b"\n")?;
    }
    Ok(text)
}

/// A schedule whose last definition stands before these lines.
fn with_lines(alloc: Global, lines: &[&str]) -> Result<Vec<u8>, AllocError> {
    let mut text = text_of(alloc, &HEAD)?;
    text.extend_from_slice(&text_of(alloc, lines)?)?;
    Ok(text)
}

fn whole(alloc: Global) -> Result<Vec<u8>, AllocError> {
    let mut text = with_lines(alloc, &["events"])?;
    text.extend_from_slice(&text_of(alloc, &EVENTS)?)?;
    text.extend_from_slice(b"end\n")?;
    Ok(text)
}

#[test]
fn reads_and_writes_a_schedule(rt: HostRuntime) -> Result<(), Fail> {
    let text = whole(rt.alloc())?;
    assert!(rt; text.len() < 4_294_967_295);
    let read = read_schedule(rt.alloc(), &text);
    assert!(rt; read.is_ok(), "{read:?}");
    let schedule = read?;
    let mut out = Vec::new(rt.alloc());
    write_definitions(&mut out, &schedule)?;
    out.extend_from_slice(b"events\n")?;
    for event in schedule.events.as_slice() {
        write_event(&mut out, event)?;
    }
    out.extend_from_slice(b"end\n")?;
    assert!(rt; out == text);
    Ok(())
}

/// The fault of a text.
fn fault_of(alloc: Global, text: &[u8]) -> Option<ScheduleFault> {
    if text.len() >= 4_294_967_295 {
        return None;
    }
    read_schedule(alloc, text).err()
}

/// The fault of a schedule whose last definition stands before these lines.
fn fault_with(alloc: Global, lines: &[&str]) -> Result<Option<ScheduleFault>, AllocError> {
    Ok(fault_of(alloc, &with_lines(alloc, lines)?))
}

fn at(line: u32, word: Word) -> Option<ScheduleFault> {
    Some(ScheduleFault::Line(line, word))
}

const OTHER_ROOM: &str = "room b max 64 seat 3600000 patch 1 keep 3600000";

#[test]
fn tells_the_first_line_of_a_tail(rt: HostRuntime) -> Result<(), Fail> {
    let alloc = rt.alloc();
    assert_eq!(rt; fault_with(alloc, &[])?, at(9, Word::End));
    assert_eq!(rt; fault_with(alloc, &["events"])?, at(10, Word::End));
    assert_eq!(rt; fault_with(alloc, &["events", "at 1"])?, at(11, Word::End));
    assert_eq!(rt;
        fault_with(alloc, &["events", "end", "end"])?,
        at(11, Word::End)
    );
    assert_eq!(rt;
        fault_with(alloc, &["events", "end", ""])?,
        at(11, Word::End)
    );
    assert_eq!(rt;
        fault_with(alloc, &["events", "at 1 ", "at 2 ", "end"])?,
        at(10, Word::Event)
    );
    assert_eq!(rt;
        fault_with(alloc, &["events", "at 1", "at 2 ", "end"])?,
        at(11, Word::Event)
    );
    assert_eq!(rt;
        fault_with(alloc, &["events", "at 1", "end "])?,
        at(11, Word::Event)
    );
    assert_eq!(rt;
        fault_with(alloc, &["events\r", "end"])?,
        at(9, Word::Event)
    );
    assert_eq!(rt; fault_with(alloc, &["end"])?, at(9, Word::Event));
    assert_eq!(rt; fault_with(alloc, &["room"])?, at(9, Word::Room));
    assert_eq!(rt; fault_with(alloc, &["rooms"])?, at(9, Word::Event));
    assert_eq!(rt;
        fault_with(alloc, &[OTHER_ROOM, OTHER_ROOM])?,
        at(10, Word::Room)
    );
    assert_eq!(rt; fault_with(alloc, &[OTHER_ROOM, "events", "end"])?, None);
    Ok(())
}

#[test]
fn tells_pieces_without_lf(rt: HostRuntime) -> Result<(), Fail> {
    let alloc = rt.alloc();
    let text = whole(alloc)?;
    assert_eq!(rt; fault_of(alloc, &text), None);
    let mut cut = Vec::from_slice(alloc, &text)?;
    cut.pop();
    assert_eq!(rt; fault_of(alloc, &cut), at(43, Word::Event));
    let mut more = Vec::from_slice(alloc, &text)?;
    more.extend_from_slice(b"x")?;
    assert_eq!(rt; fault_of(alloc, &more), at(44, Word::End));
    assert_eq!(rt; fault_of(alloc, b""), at(1, Word::End));
    assert_eq!(rt; fault_of(alloc, b"x"), at(1, Word::Schema));
    assert_eq!(rt; fault_of(alloc, b"\n"), at(1, Word::Schema));
    assert_eq!(rt; fault_of(alloc, b"class A\n"), at(2, Word::End));
    assert_eq!(rt; fault_of(alloc, b"class A\nroot A"), at(2, Word::Schema));
    assert_eq!(rt; fault_of(alloc, b"class A\nroot A\n"), at(3, Word::End));
    assert_eq!(rt;
        fault_of(alloc, b"class A\nroot A\np"),
        at(3, Word::Process)
    );
    assert_eq!(rt;
        fault_of(alloc, b"class A\nroot A\nprocess proc00001\n"),
        at(4, Word::End)
    );
    assert_eq!(rt;
        fault_of(alloc, b"class A\nroot A\nprocess proc00001\nevents\n"),
        at(4, Word::Room)
    );
    assert_eq!(rt;
        fault_of(alloc, b"class A\nroot A\nprocess proc0001\n"),
        at(3, Word::Process)
    );
    Ok(())
}

#[test]
fn tells_faults_of_a_schema_by_their_lines(rt: HostRuntime) -> Result<(), Fail> {
    let alloc = rt.alloc();
    let twice = b"class A\nfield a number\nfield a number\nroot A\nprocess proc00001\n";
    assert_eq!(rt; fault_of(alloc, twice), at(3, Word::Schema));
    let unknown = b"class A\nfield a B\nroot A\nnothing\n";
    assert_eq!(rt; fault_of(alloc, unknown), at(2, Word::Schema));
    let late = b"class A\nprocess proc00001\nroot A\n";
    assert_eq!(rt; fault_of(alloc, late), at(2, Word::Schema));
    Ok(())
}

/// Definitions of rooms that can't be.
const NO_ROOMS: [&str; 18] = [
    "room b max 0 seat 1 patch 1 keep 0",
    "room b max 65 seat 1 patch 1 keep 0",
    "room b max 1 seat 0 patch 1 keep 0",
    "room b max 1 seat 3600001 patch 1 keep 0",
    "room b max 1 seat 1 patch 0 keep 0",
    "room b max 1 seat 1 patch 1 keep 3600001",
    "room b max 1 seat 1 patch 1 keep",
    "room b max 1 seat 1 patch 1 keep 0 ",
    "room b max 1 seat 1 patch 1 keep 0 filter",
    "room b max 1 seat 1 patch 1 keep 0 filter ",
    "room b max 1 seat 1 patch 1 keep 0 filter a,a",
    "room b max 1 seat 1 patch 1 keep 0 filter a,,b",
    "room b max 1 seat 1 patch 1 keep 0 filter a,b,c,d,e",
    "room b max 1 seat 1 patch 1 keep 0 filter a b",
    "room b. max 1 seat 1 patch 1 keep 0",
    "room  max 1 seat 1 patch 1 keep 0",
    "room b max 1 patch 1 seat 1 keep 0",
    "room duel max 1 seat 1 patch 1 keep 0",
];

#[test]
fn refuses_definitions(rt: HostRuntime) -> Result<(), Fail> {
    for line in NO_ROOMS {
        let fault = fault_with(rt.alloc(), &[line, "events", "end"])?;
        assert!(rt; fault == at(9, Word::Room), "{line} {fault:?}");
    }
    let last = "room b max 1 seat 1 patch 1 keep 0 filter a,b,c,d";
    assert_eq!(rt; fault_with(rt.alloc(), &[last, "events", "end"])?, None);
    Ok(())
}

#[test]
fn reads_words(rt: HostRuntime) -> Result<(), Fail> {
    let alloc = rt.alloc();
    assert!(rt; read_plain(alloc, b"-")?.is_empty());
    assert!(rt; read_plain(alloc, b"%2D")?.as_slice() == b"-".as_slice());
    assert!(rt; read_plain(alloc, b"--")?.as_slice() == b"--".as_slice());
    assert!(rt; read_plain(alloc, b"%FF")?.as_slice() == b"\xff".as_slice());
    assert!(rt; read_plain(alloc, b"a%2D").is_err());
    assert!(rt; read_plain(alloc, b"").is_err());
    assert!(rt; read_quoted(alloc, b"'-")?.as_str() == "-");
    assert!(rt; read_quoted(alloc, b"'%2D").is_err());
    assert!(rt; read_quoted(alloc, b"x").is_err());
    assert!(rt; read_quoted(alloc, b"").is_err());
    assert!(rt; read_value(alloc, b"").is_err());
    assert!(rt; read_kind(alloc, b"").is_err());
    Ok(())
}

/// A text of what a replay prints.
fn printed(alloc: Global, lines: &[&str]) -> Result<Vec<u8>, AllocError> {
    let mut text = text_of(alloc, &HEAD[..6])?;
    text.extend_from_slice(&text_of(alloc, lines)?)?;
    text.extend_from_slice(b"end\n")?;
    Ok(text)
}

#[test]
fn reads_and_prints_each_output(rt: HostRuntime) -> Result<(), Fail> {
    let text = printed(rt.alloc(), &PRINTED)?;
    assert!(rt; text.len() < 4_294_967_295);
    let read = read_print(rt.alloc(), &text);
    assert!(rt; read.is_ok(), "{read:?}");
    let print = read?;
    assert_eq!(rt; print.outs.len(), PRINTED.len());
    let mut out = text_of(rt.alloc(), &HEAD[..6])?;
    for (index, (number, one)) in print.outs.as_slice().iter().enumerate() {
        assert_eq!(rt; *number as usize, index + 7);
        print_out(&mut out, one)?;
    }
    out.extend_from_slice(b"end\n")?;
    assert!(rt; out == text);
    Ok(())
}

#[test]
fn refuses_other_outputs(rt: HostRuntime) -> Result<(), Fail> {
    for line in NO_OUTPUTS {
        let text = printed(rt.alloc(), &["send 1 -", line])?;
        assert!(rt; text.len() < 4_294_967_295);
        let fault = read_print(rt.alloc(), &text).err();
        assert!(rt; fault == at(8, Word::Output), "{line} {fault:?}");
    }
    Ok(())
}

/// The row of an instance, and those of three collections.
fn some_rows(alloc: Global) -> Result<Rows, Memory> {
    let mut fields = Rising::new(alloc);
    fields.put(FieldValue {
        field: 0,
        value: Value::Whole(-5),
    })?;
    fields.put(FieldValue {
        field: 3,
        value: Value::Link(RefNum(1)),
    })?;
    let mut items = Rising::new(alloc);
    items.put(MapItem {
        number: 2,
        key: Text::from_text(alloc, "a b")?,
        value: Value::Truth(true),
    })?;
    let mut values = Seq::new(alloc);
    values.push(Value::Str(Text::from_text(alloc, "%")?))?;
    values.push(Value::Truth(false))?;
    let mut set = Rising::new(alloc);
    set.put(SetItem {
        number: 0,
        value: Value::Whole(7),
    })?;
    let home = Home {
        class: TypeNum(0),
        field: 2,
    };
    let mut rows = Rising::new(alloc);
    rows.put(RowEntry {
        who: RefNum(0),
        row: Row::Struct(TypeNum(4), fields),
    })?;
    rows.put(RowEntry {
        who: RefNum(1),
        row: Row::Map(home, items),
    })?;
    rows.put(RowEntry {
        who: RefNum(5),
        row: Row::Array(home, values),
    })?;
    rows.put(RowEntry {
        who: RefNum(9),
        row: Row::Set(home, set),
    })?;
    Ok(Rows::from_rising(rows))
}

#[test]
fn prints_rows(rt: HostRuntime) -> Result<(), Fail> {
    let rows = some_rows(rt.alloc())?;
    let mut out = Vec::new(rt.alloc());
    print_rows(&mut out, &rows)?;
    let expected =
        "struct 0 4 0=-5 3=#1\nmap 1 0.2 2:'a%20b=true\narray 5 0.2 '%25 false\nset 9 0.2 0=7\n";
    assert!(rt; out.as_slice() == expected.as_bytes());
    Ok(())
}
