//! State frames decoded and refused: what the scripts of rooms don't reach.
use crate::script::{lines_of, rows_text, schema_of};
use patch_decoder::{Decoder, OpFault};
use schema_model::ReadFault::{BadForm, BadText, Short};
use std::alloc::Global;
use std::process::Abort;
use std::test::Fail;

fn new_decoder(alloc: Global, schema: &str) -> Result<Decoder, Fail> {
    Ok(Decoder::new(alloc, schema_of(alloc, schema)?)?)
}

// What the decoder answers to a frame: `full ..` or `patch ..`, without its code, in hex.
fn feed(alloc: Global, decoder: &mut Decoder, frame: &str) -> Result<Result<(), OpFault>, Fail> {
    let (name, hex) = frame.split_once(' ').ok_or("no frame")?;
    let Ok(bytes) = hex::decode(alloc, hex) else {
        return Err(Fail::new("no hex"));
    };
    match name {
        "full" => Ok(decoder.full(&bytes)),
        "patch" => Ok(decoder.patch(&bytes)),
        _ => Err(Fail::new("no frame")),
    }
}

// What the decoder makes of a frame: its rows, or the fault, where it changes nothing.
fn answer(alloc: Global, decoder: &mut Decoder, frame: &str) -> Result<String, Fail> {
    let before = rows_text(alloc, &decoder.rows()?)?;
    let answer = feed(alloc, decoder, frame)?;
    let after = rows_text(alloc, &decoder.rows()?)?;
    match answer {
        Ok(()) => Ok(after),
        Err(_) if after != before => Err(Fail::new("a refused frame changed the rows")),
        Err(fault) => Ok(format!(in alloc; "{fault:?}")?),
    }
}

// Each frame of a script leads to its rows, or is refused with its fault.
fn check_all(
    rt: &impl Abort,
    alloc: Global,
    decoder: &mut Decoder,
    lines: &[(&str, &str)],
) -> Result<(), Fail> {
    for (frame, expected) in lines {
        let found = answer(alloc, decoder, frame)?;
        assert_eq!(rt; found.as_str(), *expected, "{frame}");
    }
    Ok(())
}

fn check(rt: &impl Abort, alloc: Global, schema: &str, script: &str) -> Result<(), Fail> {
    let mut decoder = new_decoder(alloc, schema)?;
    check_all(rt, alloc, &mut decoder, &lines_of(alloc, script)?)
}

// ---- arrays and sets

const HAND: &str =
    "class State\nfield hand array Card view\nclass Card\nfield rank number\nroot State\n";

const CARDS: &str = "
full 8001ff01810303d501ff038005 = 0(0=#1 )1(#3 )3.1(0=5 )
patch ff01810303810202d501 = 0(0=#1 )1(#3 #2 )2.1()3.1(0=5 )
patch ff05 = UnknownRef(1)
patch 80 = Scalar(Short(1))
patch ff0120 = Unsupported(2, 32)
patch 01 = UnknownField(0)
patch 8001ff017f = UnknownOp(4, 127)
patch ff012103 = 0(0=#1 )1(#2 )2.1()
patch ff012107 = 0(0=#1 )1(#2 )2.1()
";

#[test]
fn cards_by_their_references(rt: HostRuntime) -> Result<(), Fail> {
    check(&rt, rt.alloc(), HAND, CARDS)
}

const LISTS: &str = "class State\nfield list array number\nfield tags set string\nroot State\n";

const POSITIONS: &str = "
full 8001ff010a800001800102800203 = 0(0=#1 )1(1 2 3 )
patch ff010000020001034002 = 0(0=#1 )1(2 3 )
// A number at the first place; a hole that closes behind the operations, and one that closes at a switch.
patch ff01800005 = 0(0=#1 )1(5 2 3 )
patch ff014000800109 = 0(0=#1 )1(9 3 )
patch ff014000ff00ff01800109 = 0(0=#1 )1(3 9 )
patch ff0140004001800007 = 0(0=#1 )1(7 )
patch ff01c00204 = NoItem(3)
patch ff01c00104 = 0(0=#1 )1(7 4 )
patch ff01c000ff = 0(0=#1 )1(-1 4 )
// The value is read before the position is looked for, and what was done before a fault isn't kept.
patch ff018009 = Scalar(Short(4))
patch ff010aff09 = UnknownRef(4)
patch 40 = 0()
";

#[test]
fn numbers_by_their_positions(rt: HostRuntime) -> Result<(), Fail> {
    check(&rt, rt.alloc(), LISTS, POSITIONS)
}

const TAGS: &str = "
full 8101ff018000a1618001a162 = 0(1=#1 )1(0:'a 1:'b )
patch ff014000 = 0(1=#1 )1(1:'b )
patch ff010001a163 = 0(1=#1 )1(1:'c )
patch ff010000a163 = NoItem(3)
patch ff01810000 = UnknownOp(2, 129)
patch ff010a = 0(1=#1 )1()
";

#[test]
fn tags_of_a_set(rt: HostRuntime) -> Result<(), Fail> {
    check(&rt, rt.alloc(), LISTS, TAGS)
}

// ---- instances, of a class and of one that inherits from it

const KINDS: &str =
    "class State\nfield one Base\nfield all map Base\nclass Base\nfield x number\nclass Child : Base\nfield y number\nclass Other\nroot State\n";

const INSTANCES: &str = "
// A type mark under an operation with the ADD bit, and none.
full 8005d502ff058007 = 0(0=#5 )5.2(0=7 )
patch 8006 = 0(0=#6 )6.1()
patch c005d502 = 0(0=#5 )5.2()
patch 8007d504 = UnknownType(3)
patch 8007d503 = WrongClass(1)
patch 8105 = WrongClass(1)
patch 0007 = UnknownRef(1)
// A mark is no part of a value under REPLACE.
patch 0005d502 = UnknownField(2)
patch 0005 = 0(0=#5 )5.2()
patch ff058109 = 0(0=#5 )5.2(1=9 )
";

#[test]
fn instances_are_of_their_class(rt: HostRuntime) -> Result<(), Fail> {
    check(&rt, rt.alloc(), KINDS, INSTANCES)
}

const ITEMS: &str = "
full 8101ff018000a16102d5018001a16203d502 = 0(1=#1 )1(0:a=#2 1:b=#3 )2.1()3.2()
// Another number with the key is taken away.
patch ff018002a16102 = 0(1=#1 )1(1:b=#3 2:a=#2 )2.1()3.2()
patch ff01000103 = 0(1=#1 )1(1:b=#3 2:a=#2 )2.1()3.2()
patch ff01000003 = NoItem(3)
patch ff018003c102 = Scalar(BadForm(4))
patch ff0180cf0000000000000000 = Scalar(TooWide(3))
patch ff014001 = 0(1=#1 )1(2:a=#2 )2.1()
patch ff010a = 0(1=#1 )1()
";

#[test]
fn items_of_a_map(rt: HostRuntime) -> Result<(), Fail> {
    check(&rt, rt.alloc(), KINDS, ITEMS)
}

const NODES: &str = "class Node\nfield next Node\nroot Node\n";

// A full state begins anew.
const CYCLE: &str = "
full 8001ff018002ff028001 = 0(0=#1 )1(0=#2 )2(0=#1 )
patch 40 = 0()1(0=#2 )2(0=#1 )
full 8001ff018002 = 0(0=#1 )1(0=#2 )2()
patch 40 = 0()
";

#[test]
fn rows_that_hold_each_other_stay(rt: HostRuntime) -> Result<(), Fail> {
    check(&rt, rt.alloc(), NODES, CYCLE)
}

// ---- a full state of one player, cut off and altered

const PLAYERS: &str =
    "class State\nfield players map Player\nclass Player\nfield name string\nfield gold number view\nroot State\n";

const PLAYER: [u8; 17] = [
    0x80, 0x01, 0xff, 0x01, 0x80, 0x00, 0xa2, 0x73, 0x31, 0x02, 0xd5, 0x01, 0xff, 0x02, 0x80, 0xa1,
    0x61,
];

// What a new decoder answers to a full state. A refused one leaves the root alone.
fn first_answer(alloc: Global, state: &[u8]) -> Result<Result<(), OpFault>, Fail> {
    let mut decoder = new_decoder(alloc, PLAYERS)?;
    let answer = decoder.full(state);
    let rows = decoder.rows()?;
    if answer.is_err() && rows.as_slice().len() != 1 {
        return Err(Fail::new("a refused frame left rows"));
    }
    Ok(answer)
}

#[test]
fn a_frame_is_cut_off_at_each_length(rt: HostRuntime) -> Result<(), Fail> {
    for length in 0..=PLAYER.len() {
        let expected = match length {
            0 | 2 | 4 | 10 | 12 | 14 | 17 => Ok(()),
            _ => Err(OpFault::Scalar(Short(length))),
        };
        let found = first_answer(rt.alloc(), &PLAYER[..length])?;
        assert_eq!(rt; found, expected, "{length}");
    }
    Ok(())
}

// A place in the frame, the byte that is put there, and the fault.
const ALTERED: [(usize, u8, OpFault); 15] = [
    (0, 0xc5, OpFault::UnknownField(0)),
    (1, 0xff, OpFault::Scalar(BadForm(1))),
    (3, 0x05, OpFault::UnknownRef(3)),
    (4, 0x0f, OpFault::Unsupported(4, 15)),
    (4, 0x21, OpFault::UnknownOp(4, 33)),
    (4, 0x00, OpFault::Scalar(BadForm(6))),
    (6, 0x05, OpFault::Scalar(BadForm(6))),
    (7, 0xff, OpFault::Scalar(BadText(6))),
    (9, 0x01, OpFault::WrongClass(9)),
    (11, 0x00, OpFault::WrongClass(9)),
    (11, 0x02, OpFault::UnknownType(11)),
    (13, 0x03, OpFault::UnknownRef(13)),
    (14, 0x85, OpFault::UnknownField(14)),
    (15, 0x05, OpFault::Scalar(BadForm(15))),
    (15, 0xa2, OpFault::Scalar(Short(17))),
];

#[test]
fn a_frame_is_altered_in_fifteen_ways(rt: HostRuntime) -> Result<(), Fail> {
    for (place, byte, fault) in ALTERED {
        let mut bytes = PLAYER;
        if let Some(altered) = bytes.get_mut(place) {
            *altered = byte;
        }
        let found = first_answer(rt.alloc(), &bytes)?;
        assert_eq!(rt; found, Err(fault), "{place} {byte}");
    }
    Ok(())
}
