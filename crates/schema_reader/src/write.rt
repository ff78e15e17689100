//! Writing a schema as its one text.
ghost use Rattle.std.specs.Prelude.{◌≡◌, ◌++◌, ◌∷◌, [], IfOk, Ok, OnOk, Some, map, true};
ghost use Rattle.std.specs.Fmt.{decimal};
ghost use Rattle.text_model.specs.Marks.{line, lines};
ghost use Rattle.text_model.specs.SchemaLines.{ClassLine, RootLine, class_lines, class_name, field_line, grouped, grouping_of, is_spelled, item_word, line_words, parent_name, schema_text, tagging_of, tagging_words};
ghost use Rattle.text_model.specs.SchemaReading.{read_schema_text};
ghost use Rattle.text_words.specs.Words.{behind};

use crate::kinds::scalar_word;
use lists::{Bytes, Memory};
use schema_model::{Class, FieldDecl, Item, Schema, Shape, Tag, TypeNum};
use std::alloc::Global;
use text_words::append_decimal;

/// The name of a class.
fn class_name(classes: &[Class], class: TypeNum) -> &[u8]
    ensures { result.now ≡ class_name classes.now class }
{
    match classes.get(class.0 as usize) {
        Some(class) => class.name.as_slice(),
        None => &[],
    }
}

/// The word of an item.
fn item_word(classes: &[Class], item: Item) -> &[u8]
    ensures { result.now ≡ item_word classes.now item }
{
    match item {
        Item::Scalar(kind) => scalar_word(kind).as_bytes(),
        Item::Class(class) => class_name(classes, class),
    }
}

/// Appends a word behind another.
fn append_word(out: &mut Vec<u8>, word: &[u8]) -> Result<(), Memory>
    ensures { OnOk result (out.new.items ≡ out.old.items ++ behind (word.now ∷ [])) }
{
    out.push(b' ')?;
    out.extend_from_slice(word)?;
    Ok(())
}

/// Appends a decimal behind another word.
fn append_number(out: &mut Vec<u8>, number: u64) -> Result<(), Memory>
    ensures { OnOk result (out.new.items ≡ out.old.items ++ behind (decimal number ∷ [])) }
{
    out.push(b' ')?;
    append_decimal(out, number)
}

/// Appends the word of a shape, where it has one.
fn append_grouping(out: &mut Vec<u8>, shape: Shape) -> Result<(), Memory>
    ensures { OnOk result (out.new.items ≡ out.old.items ++ behind (grouped (grouping_of shape) [])) }
{
    match shape {
        Shape::One(_) => Ok(()),
        Shape::Map(_) => append_word(out, b"map"),
        Shape::Array(_) => append_word(out, b"array"),
        Shape::Set(_) => append_word(out, b"set"),
    }
}

/// Appends the words of a tag; the default one has no number.
fn append_tag(out: &mut Vec<u8>, tag: Tag) -> Result<(), Memory>
    ensures { OnOk result (out.new.items ≡ out.old.items ++ behind (tagging_words (tagging_of (Some tag)))) }
{
    append_word(out, b"view")?;
    if let Ok(number) = u64::try_from(tag.0) {
        append_number(out, number)?;
    }
    Ok(())
}

/// Appends what tags a field, where something does.
fn append_tagging(out: &mut Vec<u8>, tag: Option<Tag>) -> Result<(), Memory>
    ensures { OnOk result (out.new.items ≡ out.old.items ++ behind (tagging_words (tagging_of tag))) }
{
    match tag {
        Some(tag) => append_tag(out, tag),
        None => Ok(()),
    }
}

/// Appends the line of a field.
fn append_field(out: &mut Vec<u8>, classes: &[Class], field: &FieldDecl) -> Result<(), Memory>
    ensures { OnOk result (out.new.items ≡ out.old.items ++ line (line_words (field_line classes.now field.now))) }
{
    out.extend_from_slice(b"field")?;
    append_word(out, field.name.as_slice())?;
    append_grouping(out, field.shape)?;
    append_word(out, item_word(classes, field.shape.item()))?;
    append_tagging(out, field.tag)?;
    out.push(b'\n')?;
    Ok(())
}

/// Appends the line of a class.
fn append_class(out: &mut Vec<u8>, classes: &[Class], class: &Class) -> Result<(), Memory>
    ensures { OnOk result (out.new.items
        ≡ out.old.items ++ line (line_words (ClassLine class.now.name (parent_name classes.now class.now.parent)))) }
{
    out.extend_from_slice(b"class")?;
    append_word(out, class.name.as_slice())?;
    if let Some(parent) = class.parent {
        append_word(out, b":")?;
        append_word(out, class_name(classes, parent))?;
    }
    out.push(b'\n')?;
    Ok(())
}

/// Appends the line of a class, and those of its fields.
fn append_lines(out: &mut Vec<u8>, classes: &[Class], class: &Class) -> Result<(), Memory>
    ensures { OnOk result (out.new.items ≡ out.old.items ++ lines (map line_words (class_lines classes.now class.now))) }
{
    append_class(out, classes, class)?;
    for field in class.own.as_slice() {
        append_field(out, classes, field)?;
    }
    Ok(())
}

/// Appends the line of the root.
fn append_root(out: &mut Vec<u8>, name: &[u8]) -> Result<(), Memory>
    ensures { OnOk result (out.new.items ≡ out.old.items ++ line (line_words (RootLine name.now))) }
{
    out.extend_from_slice(b"root")?;
    append_word(out, name)?;
    out.push(b'\n')?;
    Ok(())
}

/// The lines of a schema, one behind another.
fn write_lines(alloc: Global, schema: &Schema) -> Result<Bytes, Memory>
    ensures { IfOk result (λ bytes. bytes ≡ schema_text schema.now) }
{
    let classes = schema.classes().as_slice();
    let mut out = Vec::new(alloc);
    for class in classes {
        append_lines(&mut out, classes, class)?;
    }
    append_root(&mut out, class_name(classes, schema.root))?;
    Ok(Bytes::from_vec(out))
}

/// The text of a schema: the one that is read as it, where there is such a text.
pub fn write_schema(alloc: Global, schema: &Schema) -> Result<Bytes, Memory>
    ensures text { IfOk result (λ bytes. bytes ≡ schema_text schema.now) }
    // What was written is read again as the same schema, where any text is.
    ensures again { is_spelled schema.now ≡ true → IfOk result (λ bytes. read_schema_text bytes ≡ Ok schema.now) }
{
    write_lines(alloc, schema)
}
