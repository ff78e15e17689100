//! The texts that the program reads and writes: schemas, schedules, outputs and rows.
#![tactic(auto)]

pub mod draft;
pub mod fault;
pub mod schedule;

pub use draft::{DraftClass, DraftField, DraftRoot, Grouping};
pub use fault::SchemaFault;
pub use schedule::{Print, PrintLines, Schedule, ScheduleFault, Word};
