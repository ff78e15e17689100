//! The shared part of a tick: what changed in the part of the state that everybody sees.
#![tactic(auto)]

mod shared_part;

pub use shared_part::encode_shared;
