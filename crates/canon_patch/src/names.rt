//! The numbers that operations name, in order.
ghost use Rattle.std.specs.Prelude.{◌≡◌, ◌++◌, OnOk, IfOk};
ghost use Rattle.std.specs.List.{flat_map};
ghost use Rattle.canon_patch.specs.Names.{named_by_op, named_by_value, named_by_ops, named_by_encoded};

use lists::Memory;
use std::alloc::Global;
use wire_model::{Block, Op, OpValue};

// The numbers that blocks name.
pub(crate) fn names_in_blocks(alloc: Global, blocks: &[Block]) -> Result<Vec<u32>, Memory>
    ensures { IfOk result (λ ns. ns.items ≡ named_by_encoded blocks.now) }
{
    let mut names = Vec::new(alloc);
    for block in blocks {
        push_names(&mut names, block.ops.as_slice())?;
    }
    Ok(names)
}

// The numbers that operations name.
pub(crate) fn push_names(names: &mut Vec<u32>, ops: &[Op]) -> Result<(), Memory>
    ensures { OnOk result (names.new.items ≡ names.old.items ++ named_by_ops ops.now) }
{
    for op in ops {
        push_name(names, op)?;
    }
    Ok(())
}

fn push_name(names: &mut Vec<u32>, op: &Op) -> Result<(), Memory>
    ensures { OnOk result (names.new.items ≡ names.old.items ++ named_by_op op.now) }
{
    match op {
        Op::Add(_, value) | Op::Replace(_, value) | Op::DeleteAdd(_, value) | Op::AddByRef(value) =>
            { push_linked(names, value) }
        Op::Delete(_) | Op::Clear | Op::DeleteByRef(_) => Ok(()),
    }
}

fn push_linked(names: &mut Vec<u32>, value: &OpValue) -> Result<(), Memory>
    ensures { OnOk result (names.new.items ≡ names.old.items ++ named_by_value value.now) }
{
    match value {
        OpValue::Scalar(_, _) => Ok(()),
        OpValue::Struct(who, _) | OpValue::Coll(who) => {
            names.push(who.0)?;
            Ok(())
        }
    }
}
