//! The operations that put a value under a key.
ghost use Rattle.std.specs.Prelude.{◌≡◌, IsTrue};
ghost use Rattle.std.specs.Option.{option_map_or};
ghost use Rattle.wire_model.specs.Grammar.{with_value, has_add_bit, is_item_code};
ghost use Rattle.op_reader.specs.Puts.{code_of};

use wire_model::codes::{ADD, DELETE_AND_ADD, REPLACE};
use wire_model::{Op, OpKey, OpValue};

/// An operation that puts a value under a key.
#[derive(Clone, Copy, Debug, PartialEq, Eq)]
pub enum Put {
    Add,
    Replace,
    DeleteAdd,
}

impl Put {
    /// The operation of a byte without the bits of a field; none for DELETE.
    pub fn of(code: u8) -> Option<Put>
        requires { IsTrue (is_item_code code) }
        ensures { option_map_or code_of result 64 ≡ code }
    {
        match code {
            ADD => Some(Put::Add),
            DELETE_AND_ADD => Some(Put::DeleteAdd),
            REPLACE => Some(Put::Replace),
            _ => None,
        }
    }

    /// It has the ADD bit.
    pub fn adds(self) -> bool
        ensures { result ≡ has_add_bit (code_of self) }
    {
        match self {
            Put::Add => true,
            Put::Replace => false,
            Put::DeleteAdd => true,
        }
    }

    /// The operation.
    pub fn op(self, key: OpKey, value: OpValue) -> Op
        ensures { result ≡ with_value (code_of self) key value }
    {
        match self {
            Put::Add => Op::Add(key, value),
            Put::Replace => Op::Replace(key, value),
            Put::DeleteAdd => Op::DeleteAdd(key, value),
        }
    }
}
