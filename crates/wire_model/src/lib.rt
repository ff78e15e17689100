//! The operations by which state travels: their bytes, what they do to rows, the patch from old rows to
//! new ones, and the state frame.
#![tactic(auto)]

pub mod codes;
pub mod fault;
pub mod op;

pub use fault::OpFault;
pub use op::{Block, Blocks, Op, OpKey, OpValue, Ops, RowKind, Step};
