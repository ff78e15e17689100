//! What a room consists of.
use crate::client::Client;
use live_state::LiveState;
use room_model::{RoomDef, Texts};
use seat_ledger::SeatLedger;
use std::alloc::Global;
use view_counts::ViewCounts;
use view_members::Members;

/// The parts of a room. What each frame of a client needs stands first, together, so that it is in few lines of the cache.
#[derive(Drop)]
pub struct Parts {
    pub alloc: Global,
    pub places: SeatLedger,
    /// In the order of reserving, as the entries of the places.
    pub clients: Vec<Client>,
    pub def: RoomDef,
    pub criteria: Texts,
    pub live: LiveState,
    /// The view that all have, and its members: none.
    pub shared: ViewCounts,
    pub none: Members,
}
