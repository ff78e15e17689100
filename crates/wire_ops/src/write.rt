ghost use Rattle.std.specs.Prelude.{◌≡◌, ◌++◌, ◌≤◌, List, length, drop, OnOk, OnErr, IsTrue, ◌∷◌};
ghost use Rattle.std.specs.List.{flat_map, list_all};
ghost use Rattle.wire_model.specs.OpBytes.{block_bytes, first_block, whole_block, op_bytes, head_bytes, value_bytes, count_bytes, mark_bytes, link_number};
ghost use Rattle.wire_ops.specs.Prefixes.{IsPrefixOf};
ghost use Rattle.schema_model.specs.Classes.{Schema};
ghost use Rattle.state_model.specs.declared.row.RowEntry.{RowEntry};
ghost use Rattle.state_model.specs.Rows.{kinds_of};
ghost use Rattle.wire_model.specs.Grammar.{read_blocks};
ghost use Rattle.wire_model.specs.Resolved.{resolved_blocks};
ghost use Rattle.block_laws.specs.Fitting.{BlocksFit, ReadAs, found_blocks};
ghost use Rattle.block_laws.specs.Writable.{are_writable, is_writable, is_writable_op, is_count, is_type, is_place, is_carried, is_instance};

use scalar_codec::{put_number, put_scalar, put_text};
use schema_model::{Memory, TypeNum};
use wire_model::codes::{
    ADD, ADD_BY_REF, CLEAR, DELETE, DELETE_AND_ADD, DELETE_BY_REF, REPLACE, SWITCH, TYPE_MARK,
};
use wire_model::{Block, Blocks, Op, OpKey, OpValue};

/// Appends the bytes of blocks. With `bare_root` a first block of holder 0 has no switch. An `Err` leaves
/// `out` as it was.
#[tactic(auto, using(crate::proofs::WrittenAgain::written_again))]
pub fn write_blocks(out: &mut Vec<u8>, blocks: &Blocks, bare_root: bool) -> Result<(), Memory>
    requires { IsTrue (are_writable blocks.now) }
    ensures ok { OnOk result (out.new.items ≡ out.old.items ++ block_bytes blocks.now bare_root) }
    // What was written of blocks that fit the kinds of the rows known is read as these blocks.
    ensures again { OnOk result ((schema : Schema) (rows : List RowEntry) → BlocksFit schema (kinds_of rows) blocks.now →
        ReadAs (read_blocks schema rows (drop (length out.old.items) out.new.items)) (found_blocks bare_root (resolved_blocks schema (kinds_of rows) blocks.now))) }
    ensures err { OnErr result (out.new.items ≡ out.old.items) }
{
    let before = out.len();
    let outcome = put_blocks(out, blocks.as_slice(), bare_root);
    if outcome.is_err() {
        out.truncate(before);
    }
    outcome
}

fn put_blocks(out: &mut Vec<u8>, blocks: &[Block], bare_root: bool) -> Result<(), Memory>
    requires { IsTrue (are_writable blocks.now) }
    ensures ok { OnOk result (out.new.items ≡ out.old.items ++ block_bytes blocks.now bare_root) }
    ensures prefix { IsPrefixOf out.old.items out.new.items }
{
    match blocks.split_first() {
        None => Ok(()),
        Some((first, others)) => {
            put_first_block(out, first, bare_root)?;
            put_whole_blocks(out, others)
        }
    }
}

fn put_first_block(out: &mut Vec<u8>, block: &Block, bare: bool) -> Result<(), Memory>
    requires { IsTrue (is_writable block.now) }
    ensures ok { OnOk result (out.new.items ≡ out.old.items ++ first_block bare block.now) }
    ensures prefix { IsPrefixOf out.old.items out.new.items }
{
    if bare && block.holder.0 == 0 {
        put_ops(out, block.ops.as_slice())
    } else {
        put_whole_block(out, block)
    }
}

fn put_whole_blocks(out: &mut Vec<u8>, blocks: &[Block]) -> Result<(), Memory>
    requires { IsTrue (are_writable blocks.now) }
    ensures ok { OnOk result (out.new.items ≡ out.old.items ++ flat_map whole_block blocks.now) }
    ensures prefix { IsPrefixOf out.old.items out.new.items }
{
    for block in blocks {
        put_whole_block(out, block)?;
    }
    Ok(())
}

fn put_whole_block(out: &mut Vec<u8>, block: &Block) -> Result<(), Memory>
    requires { IsTrue (is_writable block.now) }
    ensures ok { OnOk result (out.new.items ≡ out.old.items ++ whole_block block.now) }
    ensures prefix { IsPrefixOf out.old.items out.new.items }
{
    put_numbered(out, SWITCH, block.holder.0)?;
    put_ops(out, block.ops.as_slice())
}

fn put_ops(out: &mut Vec<u8>, ops: &[Op]) -> Result<(), Memory>
    requires { IsTrue (list_all is_writable_op ops.now) }
    ensures ok { OnOk result (out.new.items ≡ out.old.items ++ flat_map op_bytes ops.now) }
    ensures prefix { IsPrefixOf out.old.items out.new.items }
{
    for op in ops {
        put_op(out, op)?;
    }
    Ok(())
}

fn put_op(out: &mut Vec<u8>, op: &Op) -> Result<(), Memory>
    requires { IsTrue (is_writable_op op.now) }
    ensures ok { OnOk result (out.new.items ≡ out.old.items ++ op_bytes op.now) }
    ensures prefix { IsPrefixOf out.old.items out.new.items }
{
    match op {
        Op::Add(key, value) => put_valued(out, ADD, key, value),
        Op::Replace(key, value) => put_valued(out, REPLACE, key, value),
        Op::DeleteAdd(key, value) => put_valued(out, DELETE_AND_ADD, key, value),
        Op::Delete(key) => put_head(out, DELETE, key),
        Op::Clear => {
            out.push(CLEAR)?;
            Ok(())
        }
        Op::AddByRef(value) => put_added_instance(out, value),
        Op::DeleteByRef(who) => put_numbered(out, DELETE_BY_REF, who.0),
    }
}

fn put_valued(out: &mut Vec<u8>, code: u8, key: &OpKey, value: &OpValue) -> Result<(), Memory>
    requires code { code ≤ 192 }
    requires key { IsTrue (is_place key.now) }
    requires value { IsTrue (is_carried value.now) }
    ensures ok { OnOk result (out.new.items ≡ out.old.items ++ (head_bytes code key.now ++ value_bytes value.now)) }
    ensures prefix { IsPrefixOf out.old.items out.new.items }
{
    put_head(out, code, key)?;
    put_value(out, value)
}

// The number of an instance stands before the whole value, which begins with it again.
fn put_added_instance(out: &mut Vec<u8>, value: &OpValue) -> Result<(), Memory>
    requires instance { IsTrue (is_instance value.now) }
    requires value { IsTrue (is_carried value.now) }
    ensures ok { OnOk result (out.new.items ≡ out.old.items ++ (129 ∷ (count_bytes (link_number value.now) ++ value_bytes value.now))) }
    ensures prefix { IsPrefixOf out.old.items out.new.items }
{
    let OpValue::Struct(who, _) = value else {
        unreachable!()
    };
    put_numbered(out, ADD_BY_REF, who.0)?;
    put_value(out, value)
}

// The code with its place. On an instance the two are one byte: the code and the field's index.
fn put_head(out: &mut Vec<u8>, code: u8, key: &OpKey) -> Result<(), Memory>
    requires code { code ≤ 192 }
    requires key { IsTrue (is_place key.now) }
    ensures ok { OnOk result (out.new.items ≡ out.old.items ++ head_bytes code key.now) }
    ensures prefix { IsPrefixOf out.old.items out.new.items }
{
    match key {
        OpKey::Field(index) => {
            out.push(code + *index)?;
            Ok(())
        }
        OpKey::Item(number) => put_numbered(out, code, *number),
        OpKey::Named(number, name) => {
            put_numbered(out, code, *number)?;
            put_text(out, name.as_str())
        }
    }
}

fn put_value(out: &mut Vec<u8>, value: &OpValue) -> Result<(), Memory>
    requires { IsTrue (is_carried value.now) }
    ensures ok { OnOk result (out.new.items ≡ out.old.items ++ value_bytes value.now) }
    ensures prefix { IsPrefixOf out.old.items out.new.items }
{
    match value {
        OpValue::Scalar(kind, scalar) => put_scalar(out, *kind, scalar),
        OpValue::Struct(who, class) => {
            put_count(out, who.0)?;
            put_mark(out, *class)
        }
        OpValue::Coll(who) => put_count(out, who.0),
    }
}

fn put_mark(out: &mut Vec<u8>, class: Option<TypeNum>) -> Result<(), Memory>
    requires { IsTrue (is_type class) }
    ensures ok { OnOk result (out.new.items ≡ out.old.items ++ mark_bytes class) }
    ensures prefix { IsPrefixOf out.old.items out.new.items }
{
    match class {
        Some(class) => put_numbered(out, TYPE_MARK, class.0),
        None => Ok(()),
    }
}

// A byte, then a reference, type, item or position number.
fn put_numbered(out: &mut Vec<u8>, byte: u8, number: u32) -> Result<(), Memory>
    requires { IsTrue (is_count number) }
    ensures ok { OnOk result (out.new.items ≡ out.old.items ++ (byte ∷ count_bytes number)) }
    ensures prefix { IsPrefixOf out.old.items out.new.items }
{
    out.push(byte)?;
    put_count(out, number)
}

fn put_count(out: &mut Vec<u8>, number: u32) -> Result<(), Memory>
    requires { IsTrue (is_count number) }
    ensures ok { OnOk result (out.new.items ≡ out.old.items ++ count_bytes number) }
    ensures prefix { IsPrefixOf out.old.items out.new.items }
{
    put_number(out, number as i32)
}
