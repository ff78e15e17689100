//! The three promises of a room, for every list of events that may happen.
#![tactic(auto)]

mod rooms;

pub use rooms::{clients_return, equal_records_equal_bytes, rooms_keep};
