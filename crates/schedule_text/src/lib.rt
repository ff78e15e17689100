//! Schedules and what a replay prints: read, with their first fault, and written.
#![tactic(auto)]

mod act;
mod again;
mod def;
mod event;
mod fault;
mod hex;
mod number;
mod output;
mod part;
mod print;
mod printed;
mod rows;
mod schedule;
mod word;
mod words;
mod write;

pub use again::written_is_read;
pub use event::read_event;
pub use fault::LineFault;
pub use print::{print_end, print_fault, print_out};
pub use printed::read_print;
pub use rows::print_rows;
pub use schedule::read_schedule;
pub use text_model::{Print, Schedule, ScheduleFault, Word};
pub use words::{read_kind, read_plain, read_quoted, read_value};
pub use write::{write_definitions, write_event, write_plain, write_quoted, write_value};
