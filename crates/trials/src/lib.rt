//! What no clause of the crates below says, tried from the top: rooms by their bytes, long runs, frames that are refused,
//! the limits at their numbers, and calls with ample memory.
#![tactic(auto)]

#[cfg(test)]
mod calls;
#[cfg(test)]
mod closed_room;
#[cfg(test)]
mod eight;
#[cfg(test)]
mod frames;
#[cfg(test)]
mod game;
#[cfg(test)]
mod graphs;
#[cfg(test)]
mod hub_script;
#[cfg(test)]
mod hubs;
#[cfg(test)]
mod limits;
#[cfg(test)]
mod messages;
#[cfg(test)]
mod packs;
#[cfg(test)]
mod rooms;
#[cfg(test)]
mod script;
#[cfg(test)]
mod seats;
#[cfg(test)]
mod table;
#[cfg(test)]
mod turns;
