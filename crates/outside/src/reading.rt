ghost use Rattle.std.specs.Prelude.{◌≡◌, ◌≤◌, ◌<◌, ◌+◌, ◌^◌, ◌++◌, ℕ, List, [], length, IfOk, IsErrOf};
ghost use Rattle.outside.specs.Faults.{Rose};
ghost use Rattle.outside.specs.Reads.{Reads, ReadsAll};
ghost use Rattle.outside.specs.declared.reading.ReadFault.TheVariants as fault;

use crate::{Failed, Source};
use std::alloc::{AllocError, Global};
use thiserror::Error;

/// How many bytes a text may have: 16 MiB.
pub const LIMIT: usize = 1 << 24;

// How many bytes are asked for at once.
const PIECE: usize = 1 << 16;

/// Why a source couldn't be read.
#[derive(Clone, Copy, Debug, PartialEq, Eq, Error)]
pub enum ReadFault {
    #[error("the source failed")]
    Failed,
    #[error("out of memory")]
    Memory,
}

impl From<Failed> for ReadFault {
    ghost from_gives = { λ _ given. given ≡ fault.Failed };

    fn from(_: Failed) -> Self {
        ReadFault::Failed
    }
}

impl From<AllocError> for ReadFault {
    ghost from_gives = { λ _ given. given ≡ fault.Memory };

    fn from(_: AllocError) -> Self {
        ReadFault::Memory
    }
}

/// Reads a source up to its end; of one that has more than 16 MiB it reads one byte more than that.
pub fn read_text<S: Source>(alloc: Global, source: &mut S) -> Result<Vec<u8>, ReadFault>
    ensures all { IfOk result (λ text. length text.items ≤ 2 ^ 24 → ReadsAll (S.left source.old) (S.left source.new) text.items) }
    ensures prefix { (bytes : List ℕ) × (length bytes ≤ 2 ^ 24 + 1) × Reads (S.left source.old) (S.left source.new) bytes
        × IfOk result (λ text. bytes ≡ text.items) }
    ensures later { S.faults source.old ≤ S.faults source.new }
    ensures cause { IsErrOf result fault.Failed → Rose (S.faults source.old) (S.faults source.new) }
    ensures quiet { (IsErrOf result fault.Failed → ⊥) → S.faults source.new ≡ S.faults source.old }
{
    let mut buffer = piece_room(alloc)?;
    let mut text = Vec::new(alloc);
    while text.len() <= LIMIT {
        let room = (LIMIT + 1 - text.len()).min(PIECE);
        if read_piece(source, &mut buffer[..room], &mut text)? == 0 {
            break;
        }
    }
    Ok(text)
}

// The room of a piece; apart, so that its many zeros stand in no proof but this one.
fn piece_room(alloc: Global) -> Result<Vec<u8>, AllocError>
    ensures { IfOk result (λ room. length room.items ≡ 2 ^ 16) }
{
    vec![in alloc; 0; PIECE]
}

// Reads once, and appends what was read to the text. At `Memory` the bytes that were read are lost.
fn read_piece<S: Source>(
    source: &mut S,
    buffer: &mut [u8],
    text: &mut Vec<u8>,
) -> Result<usize, ReadFault>
    ensures piece { (piece : List ℕ) × (length piece ≤ length buffer.old) × Reads (S.left source.old) (S.left source.new) piece
        × IfOk result (λ count. (count ≡ length piece) × (text.new.items ≡ text.old.items ++ piece)) }
    ensures end { IfOk result (λ count. 0 < length buffer.old → count ≡ 0 → ReadsAll (S.left source.old) (S.left source.new) []) }
    ensures later { S.faults source.old ≤ S.faults source.new }
    ensures cause { IsErrOf result fault.Failed → Rose (S.faults source.old) (S.faults source.new) }
    ensures quiet { (IsErrOf result fault.Failed → ⊥) → S.faults source.new ≡ S.faults source.old }
{
    let count = source.read(buffer)?;
    text.extend_from_slice(&buffer[..count])?;
    Ok(count)
}
