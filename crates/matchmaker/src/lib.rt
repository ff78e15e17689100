//! Matchmaking: what a request says, who gets a seat, and what is answered; and what opens a seat.
#![tactic(auto)]

mod body;
mod decision;
mod listing;
mod opening;
mod reply;
mod request;
mod target;
mod text;
mod whole;

pub use body::read_body;
pub use decision::{decide, decide_found};
pub use hub_model::{AskFault, Decision, Listing, Method, Opening, Request};
pub use listing::{def_at, meets};
pub use opening::read_target;
pub use reply::{refusal_text, reply_text};
pub use request::read_request;
pub use room_model::RoomDef;
