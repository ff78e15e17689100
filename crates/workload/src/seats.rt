//! The kernel over the places of a room.
use crate::fault::WorkFault;
use schema_model::Id;
use seat_ledger::SeatLedger;
use std::alloc::Global;

/// So many sessions are reserved, seated, kept and seated again; then half of them leave, and the seats of the others
/// lapse, so many times; each time they are new ones. Sums up which lapse.
pub fn seat(alloc: Global, count: u32, times: u32) -> Result<u64, WorkFault> {
    if count == 0 {
        return Err(WorkFault::Refused);
    }
    let mut ledger = SeatLedger::new(alloc, count)?;
    let mut sum: u64 = 0;
    for time in 0..times {
        sum = sum.wrapping_add(turn(&mut ledger, count, time)?);
    }
    Ok(sum)
}

fn turn(ledger: &mut SeatLedger, count: u32, time: u32) -> Result<u64, WorkFault> {
    come(ledger, count, time)?;
    come_back(ledger, count, time)?;
    for number in 0..count / 2 {
        ledger.leave(name(number, 0, time))?;
    }
    lapse(ledger, count - count / 2)
}

// So many sessions are reserved and seated.
fn come(ledger: &mut SeatLedger, count: u32, time: u32) -> Result<(), WorkFault> {
    for number in 0..count {
        ledger.reserve(name(number, 0, time), lapse_of(number, time))?;
    }
    for number in 0..count {
        ledger.take(name(number, 0, time), name(number, 1, time))?;
    }
    Ok(())
}

// Their seats are kept, seated again and kept.
fn come_back(ledger: &mut SeatLedger, count: u32, time: u32) -> Result<(), WorkFault> {
    for number in 0..count {
        ledger.keep(name(number, 0, time), lapse_of(number, time))?;
    }
    for number in 0..count {
        ledger.retake(
            name(number, 0, time),
            name(number, 1, time),
            name(number, 2, time),
        )?;
    }
    for number in 0..count {
        ledger.keep(name(number, 0, time), lapse_of(number, time))?;
    }
    Ok(())
}

// So many seats lapse.
fn lapse(ledger: &mut SeatLedger, count: u32) -> Result<u64, WorkFault> {
    let mut sum: u64 = 0;
    for place in 0..count {
        match ledger.expire(u64::MAX) {
            Some(session) => sum = sum.wrapping_add(u64::from(session.0[0]).wrapping_mul(u64::from(
                place,
            ))),
            None => return Err(WorkFault::Refused),
        }
    }
    Ok(sum)
}

// The session of a number at a time, or its tokens: they are scattered.
fn name(number: u32, kind: u8, time: u32) -> Id {
    let [a, b, c, d, e, f, g, h] = scattered(number, time).to_le_bytes();
    Id([a, b, c, d, e, f, g, h, kind])
}

fn lapse_of(number: u32, time: u32) -> u64 {
    scattered(number, time) >> 50
}

// A number that tells no order, after SplitMix64.
fn scattered(number: u32, time: u32) -> u64 {
    let start = u64::from(number) + (u64::from(time) << 32);
    let first = start.wrapping_mul(0x9e37_79b9_7f4a_7c15);
    let second = (first ^ (first >> 30)).wrapping_mul(0xbf58_476d_1ce4_e5b9);
    let third = (second ^ (second >> 27)).wrapping_mul(0x94d0_49bb_1331_11eb);
    third ^ (third >> 31)
}
