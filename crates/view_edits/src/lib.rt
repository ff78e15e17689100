//! View edits: rows that come into a client's view and go, with what is behind them.
#![tactic(auto)]

mod edits;
pub mod fault;
mod in_place;

pub use edits::{forget_freed, hide, show};
pub use fault::EditFault;
