use crate::{LIMIT, MemSink, MemSource, ReadFault, read_text, write_all};
use std::test::Fail;

#[test]
fn texts_are_read_to_their_end(rt: HostRuntime) -> Result<(), Fail> {
    let alloc = rt.alloc();
    let table: [(usize, &[u64], u64, &[u8]); 4] = [
        (usize::MAX, &[], 0, b""),
        (1, &[], 0, b""),
        (usize::MAX, &[1], 1, b"abcde"),
        (1, &[3], 1, b"cde"),
    ];
    for (piece, failing, faults, left) in table {
        let failing = Vec::from_slice(alloc, failing)?;
        let mut source = MemSource::new(Vec::from_slice(alloc, b"abcde")?, failing).with_piece(
            piece,
        );
        match read_text(alloc, &mut source) {
            Ok(text) => assert!(rt; faults == 0 && text.as_slice() == b"abcde".as_slice()),
            Err(fault) => assert!(rt; faults == 1 && fault == ReadFault::Failed),
        }
        assert!(rt; source.faults() == faults && source.left() == left);
    }
    Ok(())
}

#[test]
fn long_texts_are_cut(rt: HostRuntime) -> Result<(), Fail> {
    let alloc = rt.alloc();
    for (len, left) in [(LIMIT, 0), (LIMIT + 3, 2)] {
        let mut source = MemSource::new(vec![in alloc; 7; len]?, Vec::new(alloc));
        match read_text(alloc, &mut source) {
            Ok(text) => assert!(rt; text.len() + left == len),
            Err(_) => assert!(rt; false),
        }
        assert!(rt; source.left().len() == left);
    }
    Ok(())
}

#[test]
fn pieces_are_written_whole(rt: HostRuntime) -> Result<(), Fail> {
    let alloc = rt.alloc();
    let table: [(usize, &[u64], u64, &[u8]); 4] = [
        (usize::MAX, &[], 0, b"abcde"),
        (1, &[], 0, b"abcde"),
        (usize::MAX, &[1], 1, b""),
        (1, &[3], 1, b"ab"),
    ];
    for (piece, failing, faults, taken) in table {
        let mut sink = MemSink::new(alloc, Vec::from_slice(alloc, failing)?).with_piece(piece);
        assert!(rt; write_all(&mut sink, b"abcde").is_ok() == (faults == 0));
        assert!(rt; sink.faults() == faults && sink.taken() == taken);
    }
    Ok(())
}
