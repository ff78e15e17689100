//! A client of a room.
use lists::Seq;
use room_model::Stage;
use schema_model::{Bytes, Id};
use view_counts::ViewCounts;
use view_members::Members;

/// Frames, the first to be sent first.
pub type Frames = Seq<Bytes>;

/// A client: its session, how far it is, the members of its view, the view that it saw at the last tick, the frames that
/// wait for its full state, and for how many ms its seat is kept, an hour at most.
#[derive(Drop)]
pub struct Client {
    pub id: Id,
    pub stage: Stage,
    pub members: Members,
    pub view: ViewCounts,
    pub queue: Frames,
    pub keep: u32,
}
