//! What a line adds to what was read, or its first fault.
ghost use Rattle.std.specs.Prelude.{◌≡◌, ◌<◌, IfOk, OnOk, Some, Ok, Err, true, if◌then◌else◌, length};
ghost use Rattle.std.specs.Option.{option_map};
ghost use Rattle.text_model.specs.Marks.{is_class_name, is_field_name};
ghost use Rattle.text_model.specs.Lines.{words_of};
ghost use Rattle.text_model.specs.SchemaLines.{is_item_word};
ghost use Rattle.text_model.specs.SchemaReading.{class_taken, field_taken, form_taken, is_bad_tag, is_later, line_taken, parent_place, root_taken, tag_of, with_field};
ghost use Rattle.text_model.specs.declared.fault.SchemaFault.TheVariants.{BadTag, ParentLater};
ghost use Rattle.schema_reader.specs.Forms.{IsFormed, form_line, tagging_of_mark};
ghost use Rattle.schema_reader.specs.Gives.{Gives, taken};
ghost use Rattle.text_words.specs.Words.{bytes_of};

use crate::draft::Draft;
use crate::form::{Form, TagMark, line_form};
use crate::words::is_fractional;
use lists::Memory;
use schema_model::{MOST_CLASSES, MOST_FIELDS, Tag, TypeNum};
use std::alloc::Global;
use text_model::{DraftField, DraftRoot, Grouping, SchemaFault};
use text_words::{first_words, name_text, read_byte};

/// The place of the parent, where there is one; it has to be declared before.
fn parent_place(
    line: u32,
    draft: &Draft,
    parent: Option<&[u8]>,
) -> Result<Option<TypeNum>, SchemaFault>
    ensures { result
        ≡ (if is_later draft.now.classes (option_map (λ p. p.now) parent.entry) then Err (ParentLater line)
        else Ok (parent_place draft.now.classes (option_map (λ p. p.now) parent.entry))) }
{
    let Some(parent) = parent else {
        return Ok(None);
    };
    match draft.place(parent) {
        Some(place) => Ok(Some(place)),
        None => Err(SchemaFault::ParentLater(line)),
    }
}

/// A line of a class.
fn take_class<'a>(
    alloc: Global,
    line: u32,
    draft: &mut Draft<'a>,
    name: &'a [u8],
    parent: Option<&[u8]>,
) -> Result<(), SchemaFault>
    requires { is_class_name name.now ≡ true }
    ensures { Gives (taken result draft.new) (class_taken line draft.old name.now (option_map (λ p. p.now) parent.entry)) }
{
    if draft.place(name).is_some() {
        return Err(SchemaFault::TwiceClass(line));
    }
    let parent = parent_place(line, draft, parent)?;
    if draft.classes().len() >= MOST_CLASSES {
        return Err(SchemaFault::TooManyClasses(line));
    }
    draft
        .push_class(alloc, name, parent)
        .map_err(|_| SchemaFault::Memory)
}

/// The tag, -1 for the default one, where it is in range.
fn tag_of(line: u32, mark: TagMark) -> Result<Option<Tag>, SchemaFault>
    ensures { result
        ≡ (if is_bad_tag (tagging_of_mark mark.entry) then Err (BadTag line) else Ok (tag_of (tagging_of_mark mark.entry))) }
{
    match mark {
        TagMark::Untagged => Ok(None),
        TagMark::Default => Ok(Some(Tag(-1))),
        TagMark::Given(word) => match read_byte(word) {
            Some(tag) => Ok(Some(Tag(i16::from(tag)))),
            None => Err(SchemaFault::BadTag(line)),
        },
    }
}

/// A field, by its words.
#[tactic(auto, using(text_model::proofs::Ascii::field_name_bytes, crate::proofs::ItemWords::item_word_bytes))]
fn draft_field(
    alloc: Global,
    line: u32,
    name: &[u8],
    grouping: Grouping,
    word: &[u8],
    tag: Option<Tag>,
) -> Result<DraftField, Memory>
    requires named { is_field_name name.now ≡ true }
    requires typed { is_item_word word.now ≡ true }
    ensures { IfOk result (λ field. field ≡ record { name = name.now; grouping = grouping; word = word.now; tag = tag; line = line }) }
{
    Ok(DraftField {
        name: name_text(alloc, name)?,
        grouping,
        word: name_text(alloc, word)?,
        tag,
        line,
    })
}

/// Adds a field to the last class.
fn add_field<'a>(
    alloc: Global,
    line: u32,
    draft: &mut Draft<'a>,
    name: &'a [u8],
    grouping: Grouping,
    word: &[u8],
    tag: Option<Tag>,
) -> Result<(), Memory>
    requires named { is_field_name name.now ≡ true }
    requires typed { is_item_word word.now ≡ true }
    requires some { 0 < length draft.old.classes }
    ensures { OnOk result (draft.new ≡ record {
      classes = with_field draft.old.classes (record { name = name.now; grouping = grouping; word = word.now; tag = tag; line = line });
      root = draft.old.root;
    }) }
{
    let field = draft_field(alloc, line, name, grouping, word, tag)?;
    draft.push_field(name, field)
}

/// A line of a field, behind a class.
fn take_field<'a>(
    alloc: Global,
    line: u32,
    draft: &mut Draft<'a>,
    name: &'a [u8],
    grouping: Grouping,
    word: &[u8],
    mark: TagMark,
) -> Result<(), SchemaFault>
    requires named { is_field_name name.now ≡ true }
    requires typed { is_item_word word.now ≡ true }
    requires some { 0 < length draft.old.classes }
    ensures { Gives (taken result draft.new)
        (field_taken line draft.old name.now grouping word.now (tagging_of_mark mark.entry)) }
{
    if is_fractional(word) {
        return Err(SchemaFault::FractionalKind(line));
    }
    let tag = tag_of(line, mark)?;
    if draft.has_field(name) {
        return Err(SchemaFault::TwiceField(line));
    }
    if draft.field_count() >= MOST_FIELDS {
        return Err(SchemaFault::TooManyFields(line));
    }
    add_field(alloc, line, draft, name, grouping, word, tag).map_err(|_| SchemaFault::Memory)
}

/// The line of the root.
#[tactic(auto, using(text_model::proofs::Ascii::class_name_bytes))]
fn take_root(alloc: Global, line: u32, draft: &mut Draft, name: &[u8]) -> Result<(), SchemaFault>
    requires { is_class_name name.now ≡ true }
    ensures { Gives (taken result draft.new) (root_taken line draft.old name.now) }
{
    let name = name_text(alloc, name).map_err(|_| SchemaFault::Memory)?;
    draft.set_root(DraftRoot { name, line });
    Ok(())
}

/// A line of this form; a field stands behind a class.
fn take_form<'a>(
    alloc: Global,
    line: u32,
    draft: &mut Draft<'a>,
    form: Form<'a>,
) -> Result<(), SchemaFault>
    requires { IsFormed (form_line form) }
    ensures { Gives (taken result draft.new) (form_taken line draft.old (Some (form_line form.entry))) }
{
    match form {
        Form::Class(name, parent) => take_class(alloc, line, draft, name, parent),
        Form::Field(name, grouping, word, mark) => {
            if draft.classes().is_empty() {
                return Err(SchemaFault::UnknownWord(line));
            }
            take_field(alloc, line, draft, name, grouping, word, mark)
        }
        Form::Root(name) => take_root(alloc, line, draft, name),
    }
}

/// How many words of a line are looked at: a form has six at most, so a seventh tells that a line is of none.
const MOST_WORDS: usize = 7;

/// A line with this number, counted from 1. Behind the root there is none.
pub fn take_line<'a>(
    alloc: Global,
    line: u32,
    draft: &mut Draft<'a>,
    text: &'a [u8],
) -> Result<(), SchemaFault>
    ensures { Gives (taken result draft.new) (line_taken line draft.old (words_of text.now)) }
{
    if draft.root().is_some() {
        return Err(SchemaFault::UnknownWord(line));
    }
    let words = first_words(alloc, text, MOST_WORDS).map_err(|_| SchemaFault::Memory)?;
    match line_form(&words) {
        Some(form) => take_form(alloc, line, draft, form),
        None => Err(SchemaFault::UnknownWord(line)),
    }
}
