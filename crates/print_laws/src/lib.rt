//! What the run of a schedule prints is a print.
#![tactic(auto)]

mod prints;

pub use prints::replayed_is_print;
