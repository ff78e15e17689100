//! The lines of rows, as a client's view is written.
ghost use Rattle.std.specs.Prelude.{◌≡◌, ◌++◌, ◌∷◌, [], OnOk, OnErr, map};
ghost use Rattle.std.specs.Fmt.{decimal};
ghost use Rattle.std.specs.Io.{StartsWith};
ghost use Rattle.text_words.specs.Words.{behind};
ghost use Rattle.state_model.specs.declared.row.Row.TheVariants.{Array, Map, Set, Struct};
ghost use Rattle.text_model.specs.Marks.{line, spaced};
ghost use Rattle.text_model.specs.RowLines.{field_word, home_word, map_item_word, row_words, rows_text, set_item_word, words_of_row};
ghost use Rattle.text_model.specs.WordForms.{value_word};
ghost use Rattle.schedule_text.specs.Words.{word_text};

use crate::word::Word::{Number, Plain, Quoted};
use crate::word::{Word, append_word};
use crate::write::value_word;
use lists::Memory;
use schema_model::{Home, TypeNum, Value};
use state_model::{
    FieldValue, FieldValues, MapItem, MapItems, Row, RowEntry, Rows, SetItem, SetItems, Values,
};

/// Appends a word behind a byte.
#[tactic(auto, using(lists::proofs::Prefixes::starts_after, lists::proofs::Prefixes::starts_with_prefix))]
fn append_behind(out: &mut Vec<u8>, byte: u8, word: Word) -> Result<(), Memory>
    ensures ok { OnOk result (out.new.items ≡ out.old.items ++ byte ∷ word_text word.entry) }
    ensures err { OnErr result (StartsWith out.new.items out.old.items) }
{
    out.push(byte)?;
    append_word(out, word)
}

/// Appends ` NUMBER=VALUE`.
#[tactic(auto, using(lists::proofs::Prefixes::starts_after, lists::proofs::Prefixes::starts_with_prefix))]
fn append_item(out: &mut Vec<u8>, number: u32, value: &Value) -> Result<(), Memory>
    ensures ok { OnOk result (out.new.items ≡ out.old.items ++ 32 ∷ set_item_word (record { number = number; value = value.now })) }
    ensures err { OnErr result (StartsWith out.new.items out.old.items) }
{
    append_behind(out, b' ', Number(u64::from(number)))?;
    append_behind(out, b'=', value_word(value))
}

/// Appends ` NUMBER:KEY=VALUE`.
#[tactic(auto, using(lists::proofs::Prefixes::starts_after, lists::proofs::Prefixes::starts_with_prefix))]
fn append_map_item(out: &mut Vec<u8>, item: &MapItem) -> Result<(), Memory>
    ensures ok { OnOk result (out.new.items ≡ out.old.items ++ 32 ∷ map_item_word item.now) }
    ensures err { OnErr result (StartsWith out.new.items out.old.items) }
{
    append_behind(out, b' ', Number(u64::from(item.number)))?;
    append_behind(out, b':', Quoted(item.key.as_slice()))?;
    append_behind(out, b'=', value_word(&item.value))
}

/// Appends ` NUMBER TYPE` or the like.
#[tactic(auto, using(lists::proofs::Prefixes::starts_after, lists::proofs::Prefixes::starts_with_prefix))]
fn append_numbers(out: &mut Vec<u8>, a: u32, b: u32) -> Result<(), Memory>
    ensures ok { OnOk result (out.new.items ≡ out.old.items ++ behind (decimal a ∷ decimal b ∷ [])) }
    ensures err { OnErr result (StartsWith out.new.items out.old.items) }
{
    append_behind(out, b' ', Number(u64::from(a)))?;
    append_behind(out, b' ', Number(u64::from(b)))
}

/// Appends ` TYPE.FIELD`, behind the number of the row.
#[tactic(auto, using(lists::proofs::Prefixes::starts_after, lists::proofs::Prefixes::starts_with_prefix))]
fn append_home(out: &mut Vec<u8>, who: u32, home: Home) -> Result<(), Memory>
    ensures ok { OnOk result (out.new.items ≡ out.old.items ++ behind (decimal who ∷ home_word home ∷ [])) }
    ensures err { OnErr result (StartsWith out.new.items out.old.items) }
{
    append_numbers(out, who, home.class.0)?;
    append_behind(out, b'.', Number(u64::from(home.field)))
}

/// Appends the fields of an instance, each behind a space.
#[tactic(auto, using(lists::proofs::Prefixes::starts_after, lists::proofs::Prefixes::starts_with_prefix))]
fn append_fields(out: &mut Vec<u8>, fields: &[FieldValue]) -> Result<(), Memory>
    ensures ok { OnOk result (out.new.items ≡ out.old.items ++ behind (map field_word fields.now)) }
    ensures err { OnErr result (StartsWith out.new.items out.old.items) }
{
    for field in fields {
        append_item(out, u32::from(field.field), &field.value)?;
    }
    Ok(())
}

/// Appends the items of a map, each behind a space.
#[tactic(auto, using(lists::proofs::Prefixes::starts_after, lists::proofs::Prefixes::starts_with_prefix))]
fn append_map_items(out: &mut Vec<u8>, items: &[MapItem]) -> Result<(), Memory>
    ensures ok { OnOk result (out.new.items ≡ out.old.items ++ behind (map map_item_word items.now)) }
    ensures err { OnErr result (StartsWith out.new.items out.old.items) }
{
    for item in items {
        append_map_item(out, item)?;
    }
    Ok(())
}

/// Appends the items of an array, each behind a space.
#[tactic(auto, using(lists::proofs::Prefixes::starts_after, lists::proofs::Prefixes::starts_with_prefix))]
fn append_values(out: &mut Vec<u8>, values: &[Value]) -> Result<(), Memory>
    ensures ok { OnOk result (out.new.items ≡ out.old.items ++ behind (map value_word values.now)) }
    ensures err { OnErr result (StartsWith out.new.items out.old.items) }
{
    for value in values {
        append_behind(out, b' ', value_word(value))?;
    }
    Ok(())
}

/// Appends the items of a set, each behind a space.
#[tactic(auto, using(lists::proofs::Prefixes::starts_after, lists::proofs::Prefixes::starts_with_prefix))]
fn append_set_items(out: &mut Vec<u8>, items: &[SetItem]) -> Result<(), Memory>
    ensures ok { OnOk result (out.new.items ≡ out.old.items ++ behind (map set_item_word items.now)) }
    ensures err { OnErr result (StartsWith out.new.items out.old.items) }
{
    for item in items {
        append_item(out, item.number, &item.value)?;
    }
    Ok(())
}

/// Appends the words of an instance. An `Err` may leave a part of them.
#[tactic(auto, using(lists::proofs::Prefixes::starts_after, lists::proofs::Prefixes::starts_with_prefix))]
fn append_struct(
    out: &mut Vec<u8>,
    who: u32,
    class: TypeNum,
    fields: &FieldValues,
) -> Result<(), Memory>
    ensures ok { OnOk result (out.new.items ≡ out.old.items ++ spaced (words_of_row who (Struct class fields.now))) }
    ensures err { OnErr result (StartsWith out.new.items out.old.items) }
{
    append_word(out, Plain(b"struct"))?;
    append_numbers(out, who, class.0)?;
    append_fields(out, fields.as_slice())?;
    Ok(())
}

/// Appends the words of a map. An `Err` may leave a part of them.
#[tactic(auto, using(lists::proofs::Prefixes::starts_after, lists::proofs::Prefixes::starts_with_prefix))]
fn append_map(out: &mut Vec<u8>, who: u32, home: Home, items: &MapItems) -> Result<(), Memory>
    ensures ok { OnOk result (out.new.items ≡ out.old.items ++ spaced (words_of_row who (Map home items.now))) }
    ensures err { OnErr result (StartsWith out.new.items out.old.items) }
{
    append_word(out, Plain(b"map"))?;
    append_home(out, who, home)?;
    append_map_items(out, items.as_slice())?;
    Ok(())
}

/// Appends the words of an array. An `Err` may leave a part of them.
#[tactic(auto, using(lists::proofs::Prefixes::starts_after, lists::proofs::Prefixes::starts_with_prefix))]
fn append_array(out: &mut Vec<u8>, who: u32, home: Home, values: &Values) -> Result<(), Memory>
    ensures ok { OnOk result (out.new.items ≡ out.old.items ++ spaced (words_of_row who (Array home values.now))) }
    ensures err { OnErr result (StartsWith out.new.items out.old.items) }
{
    append_word(out, Plain(b"array"))?;
    append_home(out, who, home)?;
    append_values(out, values.as_slice())?;
    Ok(())
}

/// Appends the words of a set. An `Err` may leave a part of them.
#[tactic(auto, using(lists::proofs::Prefixes::starts_after, lists::proofs::Prefixes::starts_with_prefix))]
fn append_set(out: &mut Vec<u8>, who: u32, home: Home, items: &SetItems) -> Result<(), Memory>
    ensures ok { OnOk result (out.new.items ≡ out.old.items ++ spaced (words_of_row who (Set home items.now))) }
    ensures err { OnErr result (StartsWith out.new.items out.old.items) }
{
    append_word(out, Plain(b"set"))?;
    append_home(out, who, home)?;
    append_set_items(out, items.as_slice())?;
    Ok(())
}

/// Appends the words of a row. An `Err` may leave a part of them.
fn append_row(out: &mut Vec<u8>, who: u32, row: &Row) -> Result<(), Memory>
    ensures ok { OnOk result (out.new.items ≡ out.old.items ++ spaced (words_of_row who row.now)) }
    ensures err { OnErr result (StartsWith out.new.items out.old.items) }
{
    match row {
        Row::Struct(class, fields) => append_struct(out, who, *class, fields),
        Row::Map(home, items) => append_map(out, who, *home, items),
        Row::Array(home, values) => append_array(out, who, *home, values),
        Row::Set(home, items) => append_set(out, who, *home, items),
    }
}

/// Appends the line of a row. An `Err` may leave a part of it.
#[tactic(auto, using(lists::proofs::Prefixes::starts_after, lists::proofs::Prefixes::starts_with_prefix))]
fn append_entry(out: &mut Vec<u8>, entry: &RowEntry) -> Result<(), Memory>
    ensures ok { OnOk result (out.new.items ≡ out.old.items ++ line (row_words entry.now)) }
    ensures err { OnErr result (StartsWith out.new.items out.old.items) }
{
    append_row(out, entry.who.0, &entry.row)?;
    out.push(b'\n')?;
    Ok(())
}

/// Appends the lines of rows. An `Err` may leave a part of them.
#[tactic(auto, using(lists::proofs::Prefixes::starts_after, lists::proofs::Prefixes::starts_with_prefix))]
fn append_rows(out: &mut Vec<u8>, rows: &[RowEntry]) -> Result<(), Memory>
    ensures ok { OnOk result (out.new.items ≡ out.old.items ++ rows_text rows.now) }
    ensures err { OnErr result (StartsWith out.new.items out.old.items) }
{
    for entry in rows {
        append_entry(out, entry)?;
    }
    Ok(())
}

/// Appends the lines of rows, rising by their numbers. An `Err` leaves `out` as it was.
pub fn print_rows(out: &mut Vec<u8>, rows: &Rows) -> Result<(), Memory>
    ensures ok { OnOk result (out.new.items ≡ out.old.items ++ rows_text rows.now) }
    ensures err { OnErr result (out.new.items ≡ out.old.items) }
{
    let before = out.len();
    let outcome = append_rows(out, rows.as_slice());
    if outcome.is_err() {
        out.truncate(before);
    }
    outcome
}
