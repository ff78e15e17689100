//! Scalars by their spellings, operations read one at a time, frames of clients, and words of schedules.
use crate::script::{schema_of, value_of};
use crate::table::rows_after;
use canon_patch::apply::tree_of;
use client_frames::write_client;
use frame_model::{ClientFrame, MsgKind};
use op_reader::{OpFault, is_holder, read_op};
use scalar_codec::{get_scalar, put_scalar};
use schedule_text::{write_plain, write_quoted, write_value};
use schema_model::ScalarKind::{self, Bool, I8, I16, I32, Number, Str, U8, U16, U32};
use schema_model::{Bytes, ReadFault, RefNum, Value};
use std::alloc::Global;
use std::test::Fail;

// ---- scalars

// Values and their spellings: the forms of MessagePack, the low byte first.
const SPELLED: [(ScalarKind, &str, &str); 31] = [
    (Number, "0", "00"),
    (Number, "127", "7f"),
    (Number, "128", "cc80"),
    (Number, "255", "ccff"),
    (Number, "256", "cd0001"),
    (Number, "65535", "cdffff"),
    (Number, "65536", "ce00000100"),
    (Number, "2147483647", "ceffffff7f"),
    (Number, "-1", "ff"),
    (Number, "-32", "e0"),
    (Number, "-33", "d0df"),
    (Number, "-128", "d080"),
    (Number, "-129", "d17fff"),
    (Number, "-32769", "d2ff7fffff"),
    (Number, "-2147483648", "d200000080"),
    (Bool, "true", "01"),
    (Bool, "false", "00"),
    (I8, "-2", "fe"),
    (U8, "200", "c8"),
    (I16, "-2", "feff"),
    (U16, "513", "0102"),
    (I32, "-2", "feffffff"),
    (U32, "4294967295", "ffffffff"),
    (Str, "'", "a0"),
    (Str, "'é", "a2c3a9"),
    // Of a long text the head, and the first byte of the text.
    (Str, "'x*31", "bf78"),
    (Str, "'x*32", "d92078"),
    (Str, "'x*255", "d9ff78"),
    (Str, "'x*256", "da000178"),
    (Str, "'x*65535", "daffff78"),
    (Str, "'x*65536", "db0000010078"),
];

// The spelling of a value, which is read again behind another byte.
fn spelled(alloc: Global, kind: ScalarKind, value: &Value) -> Result<Vec<u8>, Fail> {
    if !value.fits(kind) {
        return Err(Fail::new("a value of another kind"));
    }
    let mut out = Vec::new(alloc);
    out.push(0xc0)?;
    put_scalar(&mut out, kind, value)?;
    let (found, next) = get_scalar(alloc, out.as_slice(), 1, kind)?;
    if next != out.len() || !found.same(value) {
        return Err(Fail::new("another value was read"));
    }
    Ok(out)
}

#[test]
fn scalars_are_spelled_and_read(rt: HostRuntime) -> Result<(), Fail> {
    for (kind, word, expected) in SPELLED {
        let value = value_of(rt.alloc(), word)?;
        let found = hex::encode(rt.alloc(), spelled(rt.alloc(), kind, &value)?.as_slice())?;
        let found = found.as_str().strip_prefix("c0").unwrap_or("");
        assert!(rt; found.starts_with(expected), "{word}");
    }
    Ok(())
}

// ---- operations

const DECK: &str =
    "class State\nfield n number\nfield deck map Card\nfield hand array Card\nclass Card\nroot State\n";

// A holder, bytes, and where the first step ends or why it is none.
const STEPS: [(u32, &[u8], Result<usize, OpFault>); 13] = [
    (0, &[0x80, 0x07, 0x40], Ok(2)),
    (0, &[0x40, 0x07], Ok(1)),
    (0, &[0xff, 0x03], Ok(2)),
    (0, &[0xff, 0x09], Err(OpFault::UnknownRef(1))),
    (0, &[0x81, 0x01], Ok(2)),
    (0, &[0x00], Err(OpFault::Scalar(ReadFault::Short(1)))),
    (1, &[0x80, 0x00, 0xa1, 0x61, 0x05, 0xd5, 0x01], Ok(7)),
    (1, &[0x00, 0x00, 0x03, 0xd5, 0x01], Ok(3)),
    (1, &[0x0a], Ok(1)),
    (1, &[0x81, 0x03, 0x03], Err(OpFault::UnknownOp(0, 129))),
    (2, &[0x81, 0x09, 0x05, 0xd5, 0x01], Ok(5)),
    (2, &[0x21, 0x09], Ok(2)),
    (2, &[0x80, 0x00, 0x02], Err(OpFault::WrongClass(2))),
];

// The root, its map 1, its array 2 and a card 3 are known.
#[test]
fn a_step_is_read_on_its_holder(rt: HostRuntime) -> Result<(), Fail> {
    let schema = schema_of(rt.alloc(), DECK)?;
    let rows = rows_after(rt.alloc(), &schema, "makefor 0 1; makefor 0 2; make 1")?;
    let known = tree_of(rt.alloc(), &rows)?;
    for (holder, bytes, expected) in STEPS {
        let holder = RefNum(holder);
        if bytes.is_empty() || !is_holder(&schema, &known, holder) {
            return Err(Fail::new("no holder"));
        }
        let found = read_op(rt.alloc(), &schema, &known, holder, bytes, 0).map(|step| step.1);
        assert_eq!(rt; found, expected, "{holder:?} {bytes:?}");
    }
    Ok(())
}

// ---- frames of clients

#[test]
fn clients_write_their_frames(rt: HostRuntime) -> Result<(), Fail> {
    let alloc = rt.alloc();
    let mut out = Vec::new(alloc);
    write_client(&mut out, &ClientFrame::Ack)?;
    write_client(&mut out, &ClientFrame::Leave)?;
    let payload = Bytes::from_slice(alloc, &[0xff])?;
    write_client(&mut out, &ClientFrame::Raw(MsgKind::Num(3), payload))?;
    assert_eq!(rt; out.as_slice(), [0x0a, 0x0c, 0x11, 0x03, 0xff].as_slice());
    Ok(())
}

// ---- words of schedules

const WORDS: [(&str, &str); 7] = [
    ("-5", "-5"),
    ("true", "true"),
    ("false", "false"),
    ("#7", "#7"),
    ("'", "'"),
    ("'a b%", "'a%20b%25"),
    ("'é", "'%C3%A9"),
];

#[test]
fn values_have_their_words(rt: HostRuntime) -> Result<(), Fail> {
    for (value, word) in WORDS {
        let mut out = Vec::new(rt.alloc());
        write_value(&mut out, &value_of(rt.alloc(), value)?)?;
        assert_eq!(rt; out.as_slice(), word.as_bytes(), "{word}");
    }
    Ok(())
}

#[test]
fn texts_have_their_words(rt: HostRuntime) -> Result<(), Fail> {
    let mut out = Vec::new(rt.alloc());
    write_quoted(&mut out, "a b")?;
    write_plain(&mut out, b"/a b")?;
    write_plain(&mut out, b"")?;
    write_plain(&mut out, b"-")?;
    assert_eq!(rt; out.as_slice(), b"'a%20b/a%20b-%2D".as_slice());
    Ok(())
}
