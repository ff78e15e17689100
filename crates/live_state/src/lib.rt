//! The live state of a room: its rows, changed by commands, and the pairs of a view edit.
#![tactic(auto)]

mod fault;
mod live;

pub use fault::ExpandFault;
pub use instance_table::Table;
pub use live::LiveState;
