//! The three promises of a hub, for every list of events that may come.
#![tactic(auto)]

mod hubs;

pub use hubs::{hubs_follow, hubs_give_equal_bytes, hubs_keep};
