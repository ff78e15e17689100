//! What lies outside the program: where text comes from and goes to, connections, the clock, drawn ids.
//! Each trait counts its faults, so that an answer `Failed` has its cause in a count that rose. Over them a whole source
//! is read, and whole pieces are written.
#![tactic(auto)]

mod call_plan;
mod clock;
mod fault;
mod ids;
mod last_again;
mod list_clock;
mod list_ids;
mod mem_sink;
mod mem_source;
mod mem_wire;
mod reading;
mod sink;
mod source;
mod std_clock;
mod std_sink;
mod std_source;
#[cfg(test)]
mod stream_tests;
#[cfg(test)]
mod tests;
mod wire;
mod writing;

pub use clock::Clock;
pub use fault::{Failed, WireFault};
pub use ids::Ids;
pub use list_clock::ListClock;
pub use list_ids::ListIds;
pub use mem_sink::MemSink;
pub use mem_source::MemSource;
pub use mem_wire::MemWire;
pub use reading::{LIMIT, ReadFault, read_text};
pub use sink::Sink;
pub use source::Source;
pub use std_clock::StdClock;
pub use std_sink::StdSink;
pub use std_source::StdSource;
pub use wire::{Happening, Wire, WireOut};
pub use writing::write_all;
