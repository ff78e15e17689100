//! A load of its own: a game with drawn numbers, as a schedule.
#![tactic(auto)]

mod again;
mod draws;
mod game;
mod load;
mod names;
mod parts;
mod rounds;

pub use again::made_is_read;
pub use load::{MOST_ROUNDS, generate};
