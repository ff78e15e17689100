//! Operations read from state bytes.
#![tactic(auto)]

mod known;
mod put;
mod read;
mod read_items;
mod read_value;
mod source;

pub use known::{Known, is_holder, kind_of_row};
pub use read::{read_op, read_op_on};
pub use wire_model::{Op, OpFault, OpKey, OpValue, RowKind, Step};
