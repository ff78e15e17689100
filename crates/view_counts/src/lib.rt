//! The view of a client, settled at each tick.
#![tactic(auto)]

mod reads;
mod view;

pub use reads::{count_places, count_reads};
pub use view::ViewCounts;
