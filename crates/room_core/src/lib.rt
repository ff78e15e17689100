//! A room: any number of clients that join, are acknowledged, see its state from tick to tick, drop and come back, and go.
#![tactic(auto)]

mod client;
mod clients;
mod edits;
mod entering;
mod frames;
mod leaving;
mod messages;
mod parts;
mod room;
mod takes;
mod ticks;
mod view_edit;

pub use room::Room;
pub use room_like::RoomLike;
pub use room_model::{Act, Refusal, RoomDef, RoomEvent, RoomOut, RoomOuts, Stage};
