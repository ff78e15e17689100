//! Counted steps.
#![tactic(auto)]

mod counter;

pub use counter::Steps;
