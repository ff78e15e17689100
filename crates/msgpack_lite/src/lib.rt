//! MessagePack values as bytes, both ways: what bytes are, and the shortest bytes of a value. Without floating numbers and
//! extensions; keys of maps are texts.
#![tactic(auto)]

mod build;
mod ends;
mod fits;
mod form;
mod number;
mod put;
mod reading;
mod writing;

pub use fits::has_bytes;
pub use frame_model::{Pack, PackFault, PackPairs, Packs};
pub use reading::{check, read};
pub use writing::write;
