ghost use Rattle.std.specs.Prelude.{◌≤◌, IfOk};

use crate::{
    Clock, Happening, Ids, ListClock, ListIds, MemSink, MemSource, MemWire, Sink, Source, StdClock,
    StdSink, StdSource, Wire,
};
use schema_model::{Bytes, ConnNum, Id, Text};
use std::alloc::{AllocError, Global};
use std::cell::Cell;
use std::io::{Error, ErrorKind, Read, Write};
use std::process::Abort;
use std::test::Fail;
use std::time::Duration;
use std::{io, rt};

// A reader and a writer whose calls are interrupted, then good for one byte, then go wrong.
#[derive(Drop)]
struct Shaky {
    calls: u8,
}

impl Shaky {
    fn answer(&mut self, len: usize) -> io::Result<usize>
        ensures { IfOk result (λ count. count ≤ len) }
    {
        self.calls = self.calls.saturating_add(1);
        match self.calls {
            1 => Err(Error::from(ErrorKind::Interrupted)),
            2 => Ok(len.min(1)),
            3 => Err(Error::from(ErrorKind::Other)),
            _ => Ok(0),
        }
    }
}

impl Read for Shaky {
    fn read(&mut self, into: &mut [u8]) -> io::Result<usize> {
        self.answer(into.len())
    }
}

impl Write for Shaky {
    fn write(&mut self, from: &[u8]) -> io::Result<usize> {
        self.answer(from.len())
    }

    fn flush(&mut self) -> io::Result<()> {
        Ok(())
    }
}

// Reads two bytes at most for each mark: the mark is the count, or `x` where the read fails.
fn read_as_marked<S: Source>(rt: &impl Abort, source: &mut S, bytes: &[u8], marks: &[u8]) {
    let mut left = bytes;
    for mark in marks {
        let mut buffer = [0; 2];
        if let Ok(count) = source.read(&mut buffer) {
            assert!(rt; count <= left.len() && usize::from(*mark) == 48 + count);
            let (given, others) = left.split_at(count);
            assert!(rt; &buffer[..count] == given);
            left = others;
        } else {
            assert!(rt; *mark == b'x');
        }
    }
}

// Writes what is left of the bytes for each mark, in the same way.
fn write_as_marked<S: Sink>(rt: &impl Abort, sink: &mut S, bytes: &[u8], marks: &[u8]) {
    let mut left = bytes;
    for mark in marks {
        if let Ok(count) = sink.write(left) {
            assert!(rt; usize::from(*mark) == 48 + count.min(9));
            left = &left[count..];
        } else {
            assert!(rt; *mark == b'x');
        }
    }
}

#[test]
fn sources_give_their_bytes(rt: HostRuntime) -> Result<(), Fail> {
    let alloc = rt.alloc();
    let table: [(usize, &[u64], &[u8], u64); 4] = [
        (usize::MAX, &[], b"22100", 0),
        (1, &[], b"1111100", 0),
        (usize::MAX, &[2], b"2x210", 1),
        (1, &[1, 3, 6], b"x1x11x110", 3),
    ];
    for (piece, failing, marks, faults) in table {
        let failing = Vec::from_slice(alloc, failing)?;
        let mut source = MemSource::new(Vec::from_slice(alloc, b"abcde")?, failing).with_piece(
            piece,
        );
        read_as_marked(&rt, &mut source, b"abcde", marks);
        assert!(rt; source.faults() == faults && source.left().is_empty());
    }
    Ok(())
}

#[test]
fn sinks_keep_their_bytes(rt: HostRuntime) -> Result<(), Fail> {
    let alloc = rt.alloc();
    let table: [(usize, &[u64], &[u8], u64); 4] = [
        (usize::MAX, &[], b"500", 0),
        (1, &[], b"1111100", 0),
        (2, &[2], b"2x210", 1),
        (1, &[1, 3, 6], b"x1x11x110", 3),
    ];
    for (piece, failing, marks, faults) in table {
        let mut sink = MemSink::new(alloc, Vec::from_slice(alloc, failing)?).with_piece(piece);
        write_as_marked(&rt, &mut sink, b"abcde", marks);
        assert!(rt; sink.faults() == faults && sink.taken() == b"abcde".as_slice());
    }
    Ok(())
}

#[test]
fn readers_and_writers_serve(rt: HostRuntime) {
    let mut source = StdSource::new(b"abcde".as_slice());
    read_as_marked(&rt, &mut source, b"abcde", b"22100");
    assert!(rt; source.faults() == 0);

    let mut kept = Vec::new(rt.alloc());
    write_as_marked(&rt, &mut StdSink::new(&mut kept), b"abcde", b"500");
    assert!(rt; kept.as_slice() == b"abcde".as_slice());

    let mut source = StdSource::new(Shaky { calls: 0 });
    read_as_marked(&rt, &mut source, &[0], b"1x0");
    assert!(rt; source.faults() == 1);

    let mut sink = StdSink::new(Shaky { calls: 0 });
    write_as_marked(&rt, &mut sink, b"abc", b"1xx");
    assert!(rt; sink.faults() == 2);
}

// A clock that starts at a second, can't be read at its third reading, and goes back at its fourth.
#[derive(Drop)]
struct Ticking {
    readings: Cell<u8>,
}

impl rt::Clock for Ticking {
    fn monotonic(&self) -> io::Result<Duration> {
        let reading = self.readings.get().saturating_add(1);
        self.readings.set(reading);
        match reading {
            1 => Ok(Duration::from_millis(1000)),
            2 => Ok(Duration::from_micros(1_004_900)),
            3 => Err(Error::from(ErrorKind::Other)),
            4 => Ok(Duration::from_millis(1002)),
            _ => Ok(Duration::from_secs(3)),
        }
    }

    fn since_1970(&self) -> io::Result<Duration> {
        Err(Error::from(ErrorKind::Other))
    }
}

#[test]
fn clocks_count_milliseconds(rt: HostRuntime) {
    let ticking = Ticking {
        readings: Cell::new(0),
    };
    let mut clock = StdClock::new(&ticking);
    for moment in [0, 4, 4, 4, 2000] {
        assert!(rt; clock.now() == moment);
    }
    let unread = Ticking {
        readings: Cell::new(2),
    };
    let mut clock = StdClock::new(&unread);
    for moment in [0, 0, 1998] {
        assert!(rt; clock.now() == moment);
    }
}

#[test]
fn the_runtime_serves(rt: HostRuntime) {
    assert!(rt; StdSource::new(rt.reader()).read(&mut []) == Ok(0));
    assert!(rt; StdSink::new(io::writer(&rt)).write(&[]) == Ok(0));
    let mut clock = StdClock::new(&rt);
    let first = clock.now();
    let second = clock.now();
    assert!(rt; first == 0 && first <= second);
}

#[test]
fn lists_give_their_last_again(rt: HostRuntime) -> Result<(), Fail> {
    let alloc = rt.alloc();
    let mut clock = ListClock::new(3, Vec::from_slice(alloc, &[7, 7, 9])?);
    for moment in [3, 7, 7, 9, 9, 9] {
        assert!(rt; clock.now() == moment);
    }
    let (one, two) = (Id(*b"AAAAAAAA1"), Id(*b"AAAAAAAA2"));
    let mut ids = ListIds::new(one, Vec::from_slice(alloc, &[two])?);
    for id in [one, two, two] {
        assert!(rt; ids.draw() == id);
    }
    Ok(())
}

// A wire on which a piece, a WebSocket and its message come.
fn wire_of_three(alloc: Global, failing: &[u64]) -> Result<MemWire, Fail> {
    let mut coming = Vec::new(alloc);
    coming.push(Happening::Piece(ConnNum(1), Bytes::from_slice(alloc, b"a")?))?;
    coming.push(Happening::Opened(ConnNum(2), Text::from_text(alloc, "/r")?))?;
    coming.push(Happening::Frame(ConnNum(2), Bytes::from_slice(alloc, &[5])?))?;
    let failing = Vec::from_slice(alloc, failing)?;
    Ok(MemWire::new(alloc, coming, failing))
}

// What it answers to four questions and to one message of each kind.
fn ask_and_send<W: Wire>(wire: &mut W, alloc: Global) -> Result<String, AllocError> {
    let mut told = String::new(alloc);
    for now in 0..4 {
        write!(told, "{:?} ", wire.next(now))?;
    }
    write!(told, "{:?} ", wire.send(ConnNum(2), &[6, 7]))?;
    write!(told, "{:?} ", wire.reply(ConnNum(1), b"{}"))?;
    write!(told, "{:?}", wire.close(ConnNum(2), 4000))?;
    Ok(told)
}

#[test]
fn wires_tell_and_carry(rt: HostRuntime) -> Result<(), Fail> {
    let alloc = rt.alloc();
    let table: [(&[u64], &str, &str, u64); 2] = [
        (
            &[],
            "Ok(Piece(ConnNum(1), Bytes { items: [97] })) Ok(Opened(ConnNum(2), Text { inside: \"/r\" })) \
            Ok(Frame(ConnNum(2), Bytes { items: [5] })) Ok(Idle) Ok(()) Ok(()) Ok(())",
            "[Sent(ConnNum(2), Bytes { items: [6, 7] }), \
            Replied(ConnNum(1), Bytes { items: [123, 125] }), Closed(ConnNum(2), 4000)]",
            0,
        ),
        (
            &[2, 5],
            "Ok(Piece(ConnNum(1), Bytes { items: [97] })) Err(Failed) Ok(Opened(ConnNum(2), Text { inside: \"/r\" })) \
            Ok(Frame(ConnNum(2), Bytes { items: [5] })) Err(Failed) Ok(()) Ok(())",
            "[Replied(ConnNum(1), Bytes { items: [123, 125] }), Closed(ConnNum(2), 4000)]",
            2,
        ),
    ];
    for (failing, told, carried, faults) in table {
        let mut wire = wire_of_three(alloc, failing)?;
        assert_eq!(rt; ask_and_send(&mut wire, alloc)?.as_str(), told);
        assert_eq!(rt;
            format!(in alloc; "{:?}", wire.carried())?.as_str(),
            carried
        );
        assert_eq!(rt; wire.faults(), faults);
    }
    Ok(())
}
