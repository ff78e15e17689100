//! The kernels over MessagePack values: maps and texts that are read and written, and lengths that lie.
ghost use Rattle.std.specs.Prelude.{◌≡◌, true};
ghost use Rattle.frame_model.specs.PackData.{data_of};
ghost use Rattle.frame_model.specs.Packs.{has_bytes};

use crate::fault::WorkFault;
use lists::Memory;
use msgpack_lite::{Pack, has_bytes, read, write};
use std::alloc::Global;

// A player: a map of texts, a list of texts and a map of numbers.
const PLAYER: &[u8] =
    b"\x83\xa4name\xb1a player of games\xa4tags\x93\xa3red\xa4tall\xa6winner\xa2at\x82\xa1x\xcd\x01\x00\xa1y\xd0\x80";

// A list that says it has 2^32 - 1 items.
const LIE: &[u8] = &[0xdd, 0xff, 0xff, 0xff, 0xff];

// A list of players that takes about so many KiB.
fn players(alloc: Global, size: u32) -> Result<Vec<u8>, Memory> {
    let count = (u64::from(size) * 1024 / PLAYER.len() as u64).min(u64::from(u32::MAX)) as u32;
    let mut bytes = Vec::new(alloc);
    bytes.push(0xdd)?;
    bytes.extend_from_slice(&count.to_be_bytes())?;
    for _ in 0..count {
        bytes.extend_from_slice(PLAYER)?;
    }
    Ok(bytes)
}

fn value_of(alloc: Global, bytes: &[u8]) -> Result<Pack, WorkFault> {
    match read(alloc, bytes) {
        Ok(pack) => Ok(pack),
        Err(_) => Err(WorkFault::Refused),
    }
}

/// Reads about so many KiB, so many times. Sums up how many bytes were read.
pub fn read_players(alloc: Global, size: u32, times: u32) -> Result<u64, WorkFault> {
    let bytes = players(alloc, size)?;
    let mut sum: u64 = 0;
    for _ in 0..times {
        value_of(alloc, &bytes)?;
        sum = sum.wrapping_add(bytes.len() as u64);
    }
    Ok(sum)
}

/// Writes about so many KiB, so many times. Sums up how many bytes were written.
pub fn write_players(alloc: Global, size: u32, times: u32) -> Result<u64, WorkFault> {
    let pack = value_of(alloc, &players(alloc, size)?)?;
    if !has_bytes(&pack) {
        return Err(WorkFault::Refused);
    }
    write_often(alloc, &pack, times)
}

fn write_often(alloc: Global, pack: &Pack, times: u32) -> Result<u64, WorkFault>
    requires { has_bytes (data_of pack.now) ≡ true }
{
    let mut sum: u64 = 0;
    let mut out = Vec::new(alloc);
    for _ in 0..times {
        out.clear();
        write(&mut out, pack)?;
        sum = sum.wrapping_add(out.len() as u64);
    }
    Ok(sum)
}

// So many KiB of such lists.
fn lies(alloc: Global, size: u32) -> Result<Vec<u8>, Memory> {
    let mut bytes = Vec::new(alloc);
    for _ in 0..u64::from(size) * 1024 / LIE.len() as u64 {
        bytes.extend_from_slice(LIE)?;
    }
    Ok(bytes)
}

/// Reads so many KiB of lists that say they have 2^32 - 1 items each, so many times. Sums up how often that was refused.
pub fn read_lies(alloc: Global, size: u32, times: u32) -> Result<u64, WorkFault> {
    let bytes = lies(alloc, size)?;
    let mut sum: u64 = 0;
    for _ in 0..times {
        sum = sum.wrapping_add(u64::from(read(alloc, &bytes).is_err()));
    }
    Ok(sum)
}
