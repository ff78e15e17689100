//! Acts of words.
ghost use Rattle.std.specs.Prelude.{◌≡◌, ◌∷◌, []};
ghost use Rattle.text_model.specs.Acts.{act_of, home_of, one_of, pair_of, three_of, two_of};
ghost use Rattle.schedule_text.specs.Reads.{Reads};
ghost use Rattle.text_words.specs.Words.{bytes_of};

use crate::fault::LineFault;
use crate::hex::read_hex;
use crate::number::{read_code, read_field, read_keep, read_ref, read_view_tag};
use crate::words::{read_kind, read_name, read_quoted, read_value};
use room_model::Act;
use schema_model::{Home, Pair, RefNum, TypeNum};
use state_model::Command;
use std::alloc::Global;
use text_words::is_word;

/// A field of a class.
fn read_home(class: &[u8], field: &[u8]) -> Result<Home, LineFault>
    ensures { Reads result (home_of class.now field.now) }
{
    Ok(Home {
        class: TypeNum(read_ref(class)?),
        field: read_field(field)?,
    })
}

/// A row and a tag.
fn read_pair(row: &[u8], tag: &[u8]) -> Result<Pair, LineFault>
    ensures { Reads result (pair_of row.now tag.now) }
{
    Ok(Pair {
        who: RefNum(read_ref(row)?),
        tag: read_view_tag(tag)?,
    })
}

/// The act of a word with one behind it.
fn read_one(word: &[u8], a: &[u8]) -> Result<Act, LineFault>
    ensures { Reads result (one_of word.now a.now) }
{
    if is_word(word, "make") {
        return Ok(Act::State(Command::Make(TypeNum(read_ref(a)?))));
    }
    if is_word(word, "clear") {
        return Ok(Act::State(Command::Clear(RefNum(read_ref(a)?))));
    }
    Err(LineFault::NotOfForm)
}

/// The act of a word with two behind it.
fn read_two(alloc: Global, word: &[u8], a: &[u8], b: &[u8]) -> Result<Act, LineFault>
    ensures { Reads result (two_of word.now a.now b.now) }
{
    let command = if is_word(word, "makefor") {
        Command::MakeFor(read_home(a, b)?)
    } else if is_word(word, "unset") {
        Command::Unset(RefNum(read_ref(a)?), read_field(b)?)
    } else if is_word(word, "delkey") {
        Command::DelKey(RefNum(read_ref(a)?), read_quoted(alloc, b)?)
    } else if is_word(word, "push") {
        Command::Push(RefNum(read_ref(a)?), read_value(alloc, b)?)
    } else if is_word(word, "delat") {
        Command::DelAt(RefNum(read_ref(a)?), read_ref(b)?)
    } else if is_word(word, "add") {
        Command::Add(RefNum(read_ref(a)?), read_value(alloc, b)?)
    } else if is_word(word, "del") {
        Command::Del(RefNum(read_ref(a)?), read_value(alloc, b)?)
    } else if is_word(word, "toall") {
        return Ok(Act::ToAll(read_kind(alloc, a)?, read_hex(alloc, b)?));
    } else if is_word(word, "kick") {
        return Ok(Act::Kick(read_name(a)?, read_code(b)?));
    } else if is_word(word, "keep") {
        return Ok(Act::Keep(read_name(a)?, read_keep(b)?));
    } else {
        return Err(LineFault::NotOfForm);
    };
    Ok(Act::State(command))
}

/// The act of a word with three behind it.
fn read_three(alloc: Global, word: &[u8], a: &[u8], b: &[u8], c: &[u8]) -> Result<Act, LineFault>
    ensures { Reads result (three_of word.now a.now b.now c.now) }
{
    let command = if is_word(word, "put") {
        Command::Put(RefNum(read_ref(a)?), read_field(b)?, read_value(alloc, c)?)
    } else if is_word(word, "putkey") {
        Command::PutKey(
            RefNum(read_ref(a)?),
            read_quoted(alloc, b)?,
            read_value(alloc, c)?,
        )
    } else if is_word(word, "setat") {
        Command::SetAt(RefNum(read_ref(a)?), read_ref(b)?, read_value(alloc, c)?)
    } else if is_word(word, "viewadd") {
        return Ok(Act::ViewAdd(read_name(a)?, read_pair(b, c)?));
    } else if is_word(word, "viewdel") {
        return Ok(Act::ViewDel(read_name(a)?, read_pair(b, c)?));
    } else if is_word(word, "send") {
        return Ok(Act::Send(read_name(a)?, read_kind(alloc, b)?, read_hex(alloc, c)?));
    } else if is_word(word, "raw") {
        return Ok(Act::Raw(read_name(a)?, read_kind(alloc, b)?, read_hex(alloc, c)?));
    } else {
        return Err(LineFault::NotOfForm);
    };
    Ok(Act::State(command))
}

/// The act of a word alone.
fn read_alone(word: &[u8]) -> Result<Act, LineFault>
    ensures { Reads result (act_of (word.now ∷ [])) }
{
    if is_word(word, "lock") {
        return Ok(Act::Lock);
    }
    if is_word(word, "unlock") {
        return Ok(Act::Unlock);
    }
    Err(LineFault::NotOfForm)
}

/// The act of words.
#[tactic(auto, using(crate::proofs::Forms::act_other))]
pub fn read_act(alloc: Global, words: &[&[u8]]) -> Result<Act, LineFault>
    ensures { Reads result (act_of (bytes_of words.now)) }
{
    match words {
        [word] => read_alone(word),
        [word, a] => read_one(word, a),
        [word, a, b] => read_two(alloc, word, a, b),
        [word, a, b, c] => read_three(alloc, word, a, b, c),
        _ => Err(LineFault::NotOfForm),
    }
}
