//! Items under their own numbers, and texts that lead to numbers, found in logarithmic time.
#![tactic(auto)]

mod holes;
mod numbered;
pub mod slot;
pub mod text_index;
mod tree;

pub use holes::{close_holes, drop_last_holes};
pub use numbered::Numbered;
pub use slot::Slot;
pub use text_index::{TextIndex, text_hash};
pub use tree::Tree;
