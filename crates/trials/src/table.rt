//! A table under test: what it does and what it answers, as text.
ghost use Rattle.std.specs.Prelude.{◌≡◌, ◌<◌};

use crate::script::{add_answer, command_of, lines_of, row_of, schema_of, value_text};
use instance_table::Table;
use lists::Memory;
use schema_model::{Key, Place, RefNum, Schema, Tag};
use state_model::Rows;
use std::alloc::Global;
use std::marker::Brand;
use std::process::Abort;
use std::sync::ledger::{Blank, Ledger};
use std::test::Fail;
use steps::Steps;

/// A node has a next one in field 0, an array of others in field 1, and numbers in field 2.
pub const NODES: &str =
    "class Node\nfield next Node\nfield others array Node\nfield numbers array number\nroot Node\n";

/// A game: its state, players, cards, and guests, who are players.
pub const GAME: &str =
    "class State\nfield count uint16\nfield name string\nfield next State\nfield leader Player\nfield numbers array number\nfield texts array string\nfield tags set string\nfield players map Player\nfield hand array Card view\nfield pile array Card\nfield marks set number\nfield flags set boolean\nfield team set Player\nclass Player\nfield name string\nfield gold number view\nfield ready boolean\nclass Card\nfield rank number\nclass Guest : Player\nroot State\n";

/// Numbers of rows, or how many there are where there are many.
pub fn numbers_text(alloc: Global, numbers: &[RefNum]) -> Result<String, Memory> {
    if numbers.len() > 16 {
        return Ok(format!(in alloc; "{} rows", numbers.len())?);
    }
    let mut out = String::new(alloc);
    for who in numbers {
        if !out.is_empty() {
            out.push_str(" ")?;
        }
        out.push_str(&format!(in alloc; "{}", who.0)?)?;
    }
    Ok(out)
}

// What a command answers: the row that it makes, nothing, or why it is refused.
fn command(alloc: Global, table: &mut Table, text: &str) -> Result<String, Fail> {
    let command = command_of(alloc, text)?;
    Ok(match table.apply(&command) {
        Ok(Some(who)) => format!(in alloc; "made {}", who.0)?,
        Ok(None) => String::new(alloc),
        Err(fault) => format!(in alloc; "{fault:?}")?,
    })
}

// What the last of so many equal commands answers.
fn repeat(alloc: Global, table: &mut Table, times: &str, text: &str) -> Result<String, Fail> {
    let command = command_of(alloc, text)?;
    for _ in 1..times.parse::<u32>()? {
        table.apply(&command)?;
    }
    self::command(alloc, table, text)
}

// The holders of the places that hold a row.
fn holders<L: Ledger>(
    alloc: Global,
    table: &Table,
    who: RefNum,
    steps: &mut Steps<L>,
) -> Result<String, Fail> {
    let mut found = Vec::new(alloc);
    for n in 0..table.count_of(who, steps) {
        let holder = table.holder_at(who, n, steps).ok_or("no holder")?;
        found.push(holder)?;
    }
    Ok(numbers_text(alloc, &found)?)
}

// What is behind a row under a tag.
fn behind<L: Ledger>(
    alloc: Global,
    table: &Table,
    who: RefNum,
    tag: &str,
    steps: &mut Steps<L>,
) -> Result<String, Fail> {
    let tag = Tag(tag.parse::<i16>()?);
    match table.behind(who, tag, steps)? {
        Some(found) => Ok(numbers_text(alloc, &found)?),
        None => Ok(String::from_str(alloc, "no row")?),
    }
}

// What stands in a place.
fn look<L: Ledger>(
    alloc: Global,
    table: &Table,
    holder: RefNum,
    key: Key,
    steps: &mut Steps<L>,
) -> Result<String, Fail> {
    match table.read(Place { holder, key }, steps) {
        Some(value) => Ok(value_text(alloc, value)?),
        None => Ok(String::from_str(alloc, "nothing")?),
    }
}

// What the table answers: to `sweep` the rows that it frees, to `holders 7`, `behind 0 -1`, `field 0 2`, `item 4 1` and
// `at 1 0` what it finds, and else to a command.
fn answer<L: Ledger>(
    alloc: Global,
    table: &mut Table,
    text: &str,
    steps: &mut Steps<L>,
) -> Result<String, Fail> {
    if text == "sweep" {
        table.sweep();
        return Ok(numbers_text(alloc, table.swept())?);
    }
    let words: Vec<&str> = text.split(' ').collect(alloc)?;
    match found(alloc, table, &words, steps)? {
        Some(found) => Ok(found),
        None => command(alloc, table, text),
    }
}

// What is found at words that are no command.
fn found<L: Ledger>(
    alloc: Global,
    table: &Table,
    words: &[&str],
    steps: &mut Steps<L>,
) -> Result<Option<String>, Fail> {
    match *words {
        ["holders", who] => Ok(Some(holders(alloc, table, row_of(who)?, steps)?)),
        ["behind", who, tag] => Ok(Some(behind(alloc, table, row_of(who)?, tag, steps)?)),
        [verb, who, place] => match key_of(verb, place)? {
            Some(key) => Ok(Some(look(alloc, table, row_of(who)?, key, steps)?)),
            None => Ok(None),
        },
        _ => Ok(None),
    }
}

// The place of a row that is looked at.
fn key_of(verb: &str, place: &str) -> Result<Option<Key>, Fail> {
    match verb {
        "field" => Ok(Some(Key::Field(place.parse::<u8>()?))),
        "item" => Ok(Some(Key::Item(place.parse::<u32>()?))),
        "at" => Ok(Some(Key::At(place.parse::<u32>()?))),
        _ => Ok(None),
    }
}

// What the table answers to a line: `16 times make 0`, or several commands.
fn answers<L: Ledger>(
    alloc: Global,
    table: &mut Table,
    line: &str,
    steps: &mut Steps<L>,
) -> Result<String, Fail> {
    if let Some((times, text)) = line.split_once(" times ") {
        return repeat(alloc, table, times, text);
    }
    let mut answers = String::new(alloc);
    for text in line.split("; ") {
        add_answer(&mut answers, &answer(alloc, table, text, steps)?)?;
    }
    Ok(answers)
}

fn check_all<L: Ledger>(
    rt: &impl Abort,
    alloc: Global,
    table: &mut Table,
    lines: &[(&str, &str)],
    blank: Blank,
) -> Result<(), Fail>
    requires name { blank.name ≡ L.name }
    requires parts { blank.parts ≡ L.parts }
    requires some { 0 < blank.parts }
{
    let mut steps = Steps::<L>::new(blank);
    for (line, expected) in lines {
        let found = answers(alloc, table, line, &mut steps)?;
        assert_eq!(rt; found.as_str(), *expected, "{line}");
    }
    Ok(())
}

/// A new table answers what a script says.
pub fn run(rt: &impl Abort, alloc: Global, schema: &str, script: &str) -> Result<(), Fail> {
    let mut table = Table::new(alloc, schema_of(alloc, schema)?)?;
    let lines = lines_of(alloc, script)?;
    check_all::<Brand>(rt, alloc, &mut table, &lines, Blank::new(1))
}

/// The rows of a new table after commands.
pub fn rows_after(alloc: Global, schema: &Schema, line: &str) -> Result<Rows, Fail> {
    let mut table = Table::new(alloc, schema.copy()?)?;
    for text in line.split("; ") {
        table.apply(&command_of(alloc, text)?)?;
    }
    Ok(table.rows()?)
}
