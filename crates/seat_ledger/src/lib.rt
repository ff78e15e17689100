//! The seats, reservations and kept seats of a room.
#![tactic(auto)]

mod index;
mod keys;
mod ledger;
mod places;
mod slot;
mod slots;

pub use ledger::SeatLedger;
pub use room_model::{Seat, SeatEntry, SeatFault};
