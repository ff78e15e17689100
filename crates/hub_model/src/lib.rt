//! What happens to a hub of rooms and what it gives, and its step.
#![tactic(auto)]

pub mod conn;
pub mod event;
mod moment;
pub mod request;

pub use conn::HubConn;
pub use event::{Events, HubEvent, HubOut, HubOuts};
pub use moment::LAST_MOMENT;
pub use request::{AskFault, Decision, Listing, Method, Opening, Request};
