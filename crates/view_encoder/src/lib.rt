//! The state bytes of a client: what it is sent at a tick, and its full state.
#![tactic(auto)]

mod frame;

pub use frame::{encode_full, encode_view};
