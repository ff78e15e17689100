//! The schema with which a text begins.
ghost use Rattle.std.specs.Prelude.{◌≡◌, ◌<◌, ◌-◌, ◌^◌, length, IfOk};
ghost use Rattle.text_model.specs.SchemaReading.{line_form};
ghost use Rattle.text_words.specs.Words.{bytes_of};
ghost use Rattle.schedule_text.specs.Tells.{IsEnd, IsPart, told_fault};
ghost use Rattle.text_model.specs.Schedules.{is_root_form, is_root_line};

use lists::Memory;
use schema_model::Schema;
use schema_reader::form::{Form, line_form};
use schema_reader::read_schema;
use std::alloc::Global;
use text_model::{ScheduleFault, SchemaFault, Word};
use text_words::{first_words, next_line};

/// How many words of a line are looked at: a schema's line has six at most, so a seventh tells that a line is none.
const MOST_WORDS: usize = 7;

/// Whether the words of a line are of the form of a root's.
fn has_root_form(words: &[&[u8]]) -> bool
    ensures { result ≡ is_root_form (line_form (bytes_of words.now)) }
{
    match line_form(words) {
        Some(Form::Root(_)) => true,
        Some(Form::Class(_, _)) | Some(Form::Field(_, _, _, _)) | None => false,
    }
}

/// Whether a line is of the form of a root's.
fn is_root_line(alloc: Global, line: &[u8]) -> Result<bool, Memory>
    ensures { IfOk result (λ is. is ≡ is_root_line line.now) }
{
    let words = first_words(alloc, line, MOST_WORDS)?;
    Ok(has_root_form(&words))
}

/// How many lines and bytes the schema of a text has: up to the first line of a root with it, or all.
fn schema_end(alloc: Global, text: &[u8]) -> Result<(u32, usize), Memory>
    requires { length text.now < 2 ^ 32 - 1 }
    ensures { IfOk result (λ end. IsEnd text.now end.0 end.1) }
{
    let mut lines = 0;
    let mut rest = text;
    while let Some((line, behind)) = next_line(rest) {
        lines += 1;
        if is_root_line(alloc, line)? {
            return Ok((lines, text.len() - behind.len()));
        }
        rest = behind;
    }
    Ok((lines, text.len()))
}

/// The fault of a schema as a text's: where it has no root, the text ends too early.
fn schema_fault(fault: SchemaFault) -> ScheduleFault
    ensures { result ≡ told_fault fault }
{
    match fault {
        SchemaFault::UnknownWord(line)
        | SchemaFault::UnknownClass(line)
        | SchemaFault::TwiceClass(line)
        | SchemaFault::TwiceField(line)
        | SchemaFault::TooManyFields(line)
        | SchemaFault::TooManyClasses(line)
        | SchemaFault::BadTag(line)
        | SchemaFault::FractionalKind(line)
        | SchemaFault::ParentLater(line) => ScheduleFault::Line(line, Word::Schema),
        SchemaFault::NoRoot(line) => ScheduleFault::Line(line, Word::End),
        SchemaFault::Memory => ScheduleFault::Memory,
    }
}

/// The schema with which a text begins, how many lines it has, and what stands behind them.
pub fn read_schema_part(alloc: Global, text: &[u8]) -> Result<(Schema, u32, &[u8]), ScheduleFault>
    requires { length text.now < 2 ^ 32 - 1 }
    ensures { IsPart text.now result }
{
    let (lines, len) = schema_end(alloc, text)?;
    let (part, behind) = text.split_at(len);
    match read_schema(alloc, part) {
        Ok(schema) => Ok((schema, lines, behind)),
        Err(fault) => Err(schema_fault(fault)),
    }
}
