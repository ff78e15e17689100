//! State bytes of the game that is measured, spelled number by number: players with a name and two numbers.
use crate::game::{COLLECTION, PLAYERS, X, player};
use lists::Memory;
use scalar_codec::put_number;
use schema_model::RefNum;
use std::alloc::Global;
use wire_model::codes::{ADD, REPLACE, SWITCH, TYPE_MARK};

// The first of the other numbers.
const FIRST: u32 = 20_000;

// The mark of a player.
const PLAYER_MARK: [u8; 2] = [TYPE_MARK, 1];

fn signed(number: u32) -> i32 {
    i32::try_from(number).unwrap_or(i32::MAX)
}

fn put(out: &mut Vec<u8>, number: u32) -> Result<(), Memory> {
    put_number(out, signed(number))
}

// A code and a number behind it.
fn code(out: &mut Vec<u8>, code: u8, number: u32) -> Result<(), Memory> {
    out.push(code)?;
    put(out, number)
}

fn turn(out: &mut Vec<u8>, row: RefNum) -> Result<(), Memory> {
    code(out, SWITCH, row.0)
}

// A text of less than 32 bytes.
fn put_text(out: &mut Vec<u8>, text: &str) -> Result<(), Memory> {
    out.push(0xa0 + (text.len() % 32) as u8)?;
    out.extend_from_slice(text.as_bytes())?;
    Ok(())
}

// The item of a player in the map.
fn put_item(alloc: Global, out: &mut Vec<u8>, index: u32) -> Result<(), Memory> {
    code(out, ADD, index)?;
    put_text(out, &format!(in alloc; "sess{index:05}")?)?;
    put(out, player(index).0)?;
    out.extend_from_slice(&PLAYER_MARK)?;
    Ok(())
}

// A player: its name, its index, and that below zero.
fn put_player(alloc: Global, out: &mut Vec<u8>, index: u32) -> Result<(), Memory> {
    turn(out, player(index))?;
    out.push(ADD)?;
    put_text(out, &format!(in alloc; "player {index}")?)?;
    code(out, ADD + X, index)?;
    out.push(ADD + X + 1)?;
    put_number(out, signed(index).wrapping_neg())
}

/// The full state of so many players.
pub fn full_state(alloc: Global, players: u32) -> Result<Vec<u8>, Memory> {
    let mut out = Vec::new(alloc);
    put_map(alloc, &mut out, players)?;
    for index in 0..players {
        put_player(alloc, &mut out, index)?;
    }
    Ok(out)
}

// The map of so many players.
fn put_map(alloc: Global, out: &mut Vec<u8>, players: u32) -> Result<(), Memory> {
    code(out, ADD + PLAYERS, COLLECTION.0)?;
    turn(out, COLLECTION)?;
    for index in 0..players {
        put_item(alloc, out, index)?;
    }
    Ok(())
}

/// A patch in which so many players, every tenth one, get another first number.
pub fn changes(alloc: Global, count: u32) -> Result<Vec<u8>, Memory> {
    let mut out = Vec::new(alloc);
    for change in 0..count {
        turn(&mut out, player(change.wrapping_mul(10)))?;
        code(&mut out, REPLACE + X, change.wrapping_add(FIRST))?;
    }
    Ok(out)
}
