//! A hub of rooms, over whatever is a room.
#![tactic(auto)]

mod asks;
mod conns;
mod defs;
mod entry;
mod events;
mod hub;
mod lapses;
mod moments;
mod open_rooms;
mod openings;
mod outcome;
mod parts;
mod refuse;
mod registry;
mod requests;
mod rooms;
mod seats;
mod session_rooms;
mod slots;
mod status;
mod tell;

pub use defs::{MOST_DEFS, are_hub_defs};
pub use hub::Hub;
pub use hub_model::{HubEvent, HubOut, HubOuts};
pub use room_like::RoomLike;
pub use room_model::{Act, Refusal, RoomEvent, RoomOut};
