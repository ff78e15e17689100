//! The form of a line, with words that are slices of the text.
ghost use Rattle.std.specs.Prelude.{◌≡◌};
ghost use Rattle.std.specs.Option.{option_map};
ghost use Rattle.text_model.specs.SchemaReading.{class_form, field_form, item_form, line_form, root_form, shape_form, tagging_form};
ghost use Rattle.schema_reader.specs.Forms.{form_line, tagging_of_mark};
ghost use Rattle.text_words.specs.Words.{bytes_of};

use crate::names::{is_class_name, is_field_name};
use crate::words::{is_item_word, is_tag_word};
use text_model::Grouping;
use text_words::is_word;

/// No tag, the default one, or one that is given by a word.
#[derive(Clone, Copy)]
pub enum TagMark<'a> {
    Untagged,
    Default,
    Given(&'a [u8]),
}

/// A line: a class with its parent, a field with its item and tag, or the root.
#[derive(Clone, Copy)]
pub enum Form<'a> {
    Class(&'a [u8], Option<&'a [u8]>),
    Field(&'a [u8], Grouping, &'a [u8], TagMark<'a>),
    Root(&'a [u8]),
}

/// `NAME`, or `NAME : PARENT`.
fn class_form<'a>(words: &[&'a [u8]]) -> Option<Form<'a>>
    ensures { option_map form_line result ≡ class_form (bytes_of words.now) }
{
    match words {
        [name] if is_class_name(name) => Some(Form::Class(name, None)),
        [name, colon, parent]
            if is_class_name(name) && is_word(colon, ":") && is_class_name(parent) => {
            Some(Form::Class(name, Some(parent)))
        }
        _ => None,
    }
}

/// The tag behind an item: nothing, `view`, or `view TAG`.
fn tagging_form<'a>(words: &[&'a [u8]]) -> Option<TagMark<'a>>
    ensures { option_map tagging_of_mark result ≡ tagging_form (bytes_of words.now) }
{
    match words {
        [] => Some(TagMark::Untagged),
        [view] if is_word(view, "view") => Some(TagMark::Default),
        [view, tag] if is_word(view, "view") && is_tag_word(tag) => Some(TagMark::Given(tag)),
        _ => None,
    }
}

/// `ITEM`, and its tag behind it.
fn item_form<'a>(name: &'a [u8], grouping: Grouping, words: &[&'a [u8]]) -> Option<Form<'a>>
    ensures { option_map form_line result ≡ item_form name.now grouping (bytes_of words.now) }
{
    let [item, rest @ ..] = words else {
        return None;
    };
    if !is_item_word(item) {
        return None;
    }
    let tag = tagging_form(rest)?;
    Some(Form::Field(name, grouping, item, tag))
}

/// The word of a shape, where the field has one, and the item behind it.
fn shape_form<'a>(name: &'a [u8], words: &[&'a [u8]]) -> Option<Form<'a>>
    ensures { option_map form_line result ≡ shape_form name.now (bytes_of words.now) }
{
    let [first, rest @ ..] = words else {
        return None;
    };
    if is_word(first, "map") {
        item_form(name, Grouping::Mapped, rest)
    } else if is_word(first, "array") {
        item_form(name, Grouping::Listed, rest)
    } else if is_word(first, "set") {
        item_form(name, Grouping::Gathered, rest)
    } else {
        item_form(name, Grouping::Alone, words)
    }
}

/// `NAME`, and what it holds behind it.
fn field_form<'a>(words: &[&'a [u8]]) -> Option<Form<'a>>
    ensures { option_map form_line result ≡ field_form (bytes_of words.now) }
{
    match words {
        [name, rest @ ..] if is_field_name(name) => shape_form(name, rest),
        _ => None,
    }
}

/// `NAME`.
fn root_form<'a>(words: &[&'a [u8]]) -> Option<Form<'a>>
    ensures { option_map form_line result ≡ root_form (bytes_of words.now) }
{
    match words {
        [name] if is_class_name(name) => Some(Form::Root(name)),
        _ => None,
    }
}

/// The form of the words of a line.
pub fn line_form<'a>(words: &[&'a [u8]]) -> Option<Form<'a>>
    ensures { option_map form_line result ≡ line_form (bytes_of words.now) }
{
    let [first, rest @ ..] = words else {
        return None;
    };
    if is_word(first, "class") {
        class_form(rest)
    } else if is_word(first, "field") {
        field_form(rest)
    } else if is_word(first, "root") {
        root_form(rest)
    } else {
        None
    }
}
