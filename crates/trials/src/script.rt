//! Scripts: what is done, line by line, and what it answers; and rows as texts.
use lists::{Memory, Text};
use schema_model::{Home, RefNum, Schema, TypeNum, Value};
use schema_reader::read_schema;
use state_model::{Command, FieldValue, MapItem, Row, Rows, SetItem};
use std::alloc::Global;
use std::test::Fail;

/// A schema of a text.
pub fn schema_of(alloc: Global, text: &str) -> Result<Schema, Fail> {
    match read_schema(alloc, text.as_bytes()) {
        Ok(schema) => Ok(schema),
        Err(_) => Err(Fail::new("no schema")),
    }
}

/// The lines `done = answer` of a script, without the empty ones and those that begin with two slashes. A line without an
/// answer has the empty one.
pub fn lines_of<'a>(alloc: Global, script: &'a str) -> Result<Vec<(&'a str, &'a str)>, Memory> {
    let mut lines = Vec::new(alloc);
    for line in script.lines() {
        if line.is_empty() || line.starts_with("//") {
            continue;
        }
        lines.push(line.split_once(" = ").unwrap_or((line, "")))?;
    }
    Ok(lines)
}

/// Adds an answer to others, behind a semicolon where it isn't the first.
pub fn add_answer(answers: &mut String, answer: &str) -> Result<(), Memory> {
    if !answers.is_empty() && !answer.is_empty() {
        answers.push_str("; ")?;
    }
    answers.push_str(answer)?;
    Ok(())
}

/// The row of a number.
pub fn row_of(word: &str) -> Result<RefNum, Fail> {
    Ok(RefNum(word.parse::<u32>()?))
}

// A text, or one so many times: `x*4096`.
fn text_of(alloc: Global, word: &str) -> Result<Text, Fail> {
    match word.split_once('*') {
        Some((text, times)) => {
            let times = times.parse::<usize>()?;
            Ok(Text::from_string(text.repeat(alloc, times)?))
        }
        None => Ok(Text::from_text(alloc, word)?),
    }
}

/// A value: `#7` a link, `'a` a text, `true`, `false`, else a whole number.
pub fn value_of(alloc: Global, word: &str) -> Result<Value, Fail> {
    if let Some(who) = word.strip_prefix('#') {
        return Ok(Value::Link(row_of(who)?));
    }
    if let Some(text) = word.strip_prefix('\'') {
        return Ok(Value::Str(text_of(alloc, text)?));
    }
    match word {
        "true" => Ok(Value::Truth(true)),
        "false" => Ok(Value::Truth(false)),
        _ => Ok(Value::Whole(word.parse::<i128>()?)),
    }
}

/// A command: `put 2 0 'a`, with the names and the order of the parts that commands have.
pub fn command_of(alloc: Global, text: &str) -> Result<Command, Fail> {
    let words: Vec<&str> = text.split(' ').collect(alloc)?;
    command_in(alloc, &words)
}

fn command_in(alloc: Global, words: &[&str]) -> Result<Command, Fail> {
    match *words {
        [verb, word] => command_alone(verb, word),
        [verb, who, word] => command_with(alloc, verb, row_of(who)?, word),
        [verb, who, place, word] => command_at(alloc, verb, row_of(who)?, place, word),
        _ => Err(Fail::new("no command")),
    }
}

// A command with one word.
fn command_alone(verb: &str, word: &str) -> Result<Command, Fail> {
    match verb {
        "make" => Ok(Command::Make(TypeNum(word.parse::<u32>()?))),
        "clear" => Ok(Command::Clear(row_of(word)?)),
        _ => Err(Fail::new("no command")),
    }
}

// A command on a row with one word more; `makefor` has a class in the place of a row.
fn command_with(alloc: Global, verb: &str, who: RefNum, word: &str) -> Result<Command, Fail> {
    match verb {
        "makefor" => Ok(Command::MakeFor(Home {
            class: TypeNum(who.0),
            field: word.parse::<u8>()?,
        })),
        "unset" => Ok(Command::Unset(who, word.parse::<u8>()?)),
        "delkey" => Ok(Command::DelKey(who, text_of(alloc, word)?)),
        "push" => Ok(Command::Push(who, value_of(alloc, word)?)),
        "delat" => Ok(Command::DelAt(who, word.parse::<u32>()?)),
        "add" => Ok(Command::Add(who, value_of(alloc, word)?)),
        "del" => Ok(Command::Del(who, value_of(alloc, word)?)),
        _ => Err(Fail::new("no command")),
    }
}

// A command that puts a value into a place of a row.
fn command_at(
    alloc: Global,
    verb: &str,
    who: RefNum,
    place: &str,
    word: &str,
) -> Result<Command, Fail> {
    let value = value_of(alloc, word)?;
    match verb {
        "put" => Ok(Command::Put(who, place.parse::<u8>()?, value)),
        "putkey" => Ok(Command::PutKey(who, text_of(alloc, place)?, value)),
        "setat" => Ok(Command::SetAt(who, place.parse::<u32>()?, value)),
        _ => Err(Fail::new("no command")),
    }
}

/// A value as it is written in scripts.
pub fn value_text(alloc: Global, value: &Value) -> Result<String, Memory> {
    Ok(match value {
        Value::Whole(number) => format!(in alloc; "{number}")?,
        Value::Str(text) => format!(in alloc; "'{}", text.as_str())?,
        Value::Truth(truth) => format!(in alloc; "{truth}")?,
        Value::Link(who) => format!(in alloc; "#{}", who.0)?,
    })
}

// The places of a row: `field=value`, `number:key=value`, `value`, `number:value`, each with a blank behind it.
fn places_text(alloc: Global, row: &Row) -> Result<String, Memory> {
    let mut out = String::new(alloc);
    match row {
        Row::Struct(_, fields) => {
            for FieldValue { field, value } in fields.as_slice() {
                out.push_str(&format!(in alloc; "{field}={} ", value_text(alloc, value)?)?)?;
            }
        }
        Row::Map(_, items) => {
            for MapItem { number, key, value } in items.as_slice() {
                let value = value_text(alloc, value)?;
                out.push_str(&format!(in alloc; "{number}:{}={value} ", key.as_str())?)?;
            }
        }
        Row::Array(_, values) => {
            for value in values.as_slice() {
                out.push_str(&format!(in alloc; "{} ", value_text(alloc, value)?)?)?;
            }
        }
        Row::Set(_, items) => {
            for SetItem { number, value } in items.as_slice() {
                out.push_str(&format!(in alloc; "{number}:{} ", value_text(alloc, value)?)?)?;
            }
        }
    }
    Ok(out)
}

/// Rows, as in `0(0=#1 )1(0:s1=#2 )2.1(0='a )`: an instance has its class, where it isn't the first one.
pub fn rows_text(alloc: Global, rows: &Rows) -> Result<String, Memory> {
    let mut out = String::new(alloc);
    for entry in rows.as_slice() {
        out.push_str(&format!(in alloc; "{}", entry.who.0)?)?;
        if let Row::Struct(class, _) = &entry.row {
            if class.0 != 0 {
                out.push_str(&format!(in alloc; ".{}", class.0)?)?;
            }
        }
        let places = places_text(alloc, &entry.row)?;
        out.push_str(&format!(in alloc; "({places})")?)?;
    }
    Ok(out)
}
