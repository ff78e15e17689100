//! Operations written as bytes, and what they do to a row. `op_reader` reads them.
#![tactic(auto)]

mod carried;
mod effect;
mod holder;
mod items;
mod links;
mod slots;
mod write;

pub use holder::Holder;
pub use op_reader::{Known, is_holder, read_op};
pub use wire_model::{Block, Blocks, Op, OpFault, OpKey, OpValue, Ops, RowKind, Step};
pub use write::write_blocks;
