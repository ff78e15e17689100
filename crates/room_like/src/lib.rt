//! What whoever runs rooms needs of one: its calls, what they mean, and the laws that they keep.
#![tactic(auto)]

mod quiet;
mod reserving;
mod room;
mod worded;

pub use quiet::{ends_any, is_quiet};
pub use reserving::may_reserve;
pub use room::RoomLike;
pub use worded::{know_act, know_event};
