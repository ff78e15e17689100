//! The messages of the client protocol: what a server and a client send each other, its bytes, and how they are read.
#![tactic(auto)]

pub mod codes;
pub mod fault;
pub mod form;
pub mod frame;
mod kinds;
pub mod pack;

pub use fault::{FrameFault, PackFault};
pub use frame::{ClientFrame, MsgKind, ServerFrame};
pub use kinds::know_kind;
pub use pack::{MOST_LEVELS, Pack, PackPairs, Packs};
