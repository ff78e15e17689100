//! Reading a text as a schema.
ghost use Rattle.std.specs.Prelude.{◌≡◌, ◌<◌, ◌-◌, ◌^◌, length, IfOk};
ghost use Rattle.schema_model.specs.Classes.{Schema as SchemaOf};
ghost use Rattle.text_model.specs.SchemaLines.{IsSchemaText};
ghost use Rattle.text_model.specs.SchemaReading.{ended, read_schema_text};
ghost use Rattle.schema_reader.specs.Gives.{Gives, GivesSchema, IsGiven, schema_of_parts};

use crate::draft::Draft;
use crate::resolve::resolve;
use crate::take::take_line;
use schema_model::{Classes, Memory, Schema, TypeNum};
use std::alloc::Global;
use text_model::SchemaFault;
use text_words::next_line;

/// The classes and the root of a text of which so many lines were taken, by what stands behind its last LF.
fn finish(
    alloc: Global,
    draft: &Draft,
    count: u32,
    rest: &[u8],
) -> Result<(Classes, TypeNum), SchemaFault>
    requires { count < 2 ^ 32 - 1 }
    ensures { Gives (schema_of_parts result) (ended count rest.now draft.now) }
{
    if !rest.is_empty() {
        return Err(SchemaFault::UnknownWord(count + 1));
    }
    resolve(alloc, draft, count)
}

/// The classes and the root of a text, or its first fault.
fn read_parts(alloc: Global, text: &[u8]) -> Result<(Classes, TypeNum), SchemaFault>
    ensures { Gives (schema_of_parts result) (read_schema_text text.now) }
{
    let mut draft = Draft::new(alloc);
    let mut count = 0;
    let mut rest = text;
    while let Some((line, behind)) = next_line(rest) {
        count += 1;
        take_line(alloc, count, &mut draft, line)?;
        rest = behind;
    }
    finish(alloc, &draft, count, rest)
}

/// The schema of a text, or its first fault; what is read keeps the limits of a schema.
fn read_kept(alloc: Global, text: &[u8]) -> Result<Schema, SchemaFault>
    ensures { GivesSchema result (read_schema_text text.now) }
{
    let (classes, root) = read_parts(alloc, text)?;
    match Schema::new(alloc, classes, root) {
        Ok(Some(schema)) => Ok(schema),
        Ok(None) => unreachable!(),
        Err(Memory) => Err(SchemaFault::Memory),
    }
}

/// The schema of a text, or its first fault with the number of its line. Behind 16,385 lines that could be taken none
/// can, however long the text is.
pub fn read_schema(alloc: Global, text: &[u8]) -> Result<Schema, SchemaFault>
    ensures exact { GivesSchema result (read_schema_text text.now) }
    // A schema is answered only for its one text, and for this always, unless memory runs out.
    ensures found { IfOk result (λ schema. IsSchemaText text.now schema) }
    ensures only { (schema : SchemaOf) → IsSchemaText text.now schema → IsGiven schema result }
{
    read_kept(alloc, text)
}
