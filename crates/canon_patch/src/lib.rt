//! The patch from old rows to new rows, and what blocks make of rows; of every schema and every shape.
#![tactic(auto)]

pub mod apply;
mod array;
mod blocks;
mod by_ref;
mod expected;
mod fields;
pub mod linked;
mod map;
mod marks;
mod names;
mod numbers;
mod place;
mod positions;
mod row;
mod set;
mod target;

pub use apply::apply_blocks;
pub use blocks::patch;
pub use positions::have_positions;
