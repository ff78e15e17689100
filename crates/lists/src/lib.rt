//! The small list types that every crate shares: lists, rising lists, texts and bytes.
#![tactic(auto)]

mod bytes;
mod capacity;
mod copied;
pub mod memory;
mod rising;
mod seq;
mod text;

pub use bytes::Bytes;
pub use capacity::{push_exact, reserve_total};
pub use copied::Copied;
pub use memory::Memory;
pub use rising::{Keyed, Rising, place_after, search, search_near};
pub use seq::Seq;
pub use text::{Text, TextFault};
