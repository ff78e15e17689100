//! The members of one client's view: now, at the last tick, and kept since then.
#![tactic(auto)]

pub mod fault;
mod members;
mod rank;
mod ranks;
mod sets;
mod standing;
mod turns;

pub use fault::MemberFault;
pub use members::Members;
