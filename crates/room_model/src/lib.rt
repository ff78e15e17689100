//! A room: its definition, what happens to it and what it gives, its sessions, and its step.
#![tactic(auto)]

pub mod definition;
pub mod event;
mod limits;
pub mod refusal;
pub mod seat;

pub use definition::{Defs, Names, RoomDef, Texts, Words, copy_texts};
pub use event::{Act, RoomEvent, RoomOut, RoomOuts, Stage, is_short_kind};
pub use limits::{KIND_BOUND, LONGEST_TIME, MOMENT_BOUND, MOST_FILTERS, MOST_PLACES, MOST_QUEUED};
pub use refusal::Refusal;
pub use seat::{Seat, SeatEntry, SeatFault};
