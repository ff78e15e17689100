use frame_model::Pack;
use room_model::Act;
use schema_model::{Id, Text, Value};

/// What a handler is run about.
#[derive(Debug, Drop)]
pub struct Facts {
    pub sender: Option<Id>,
    pub item: Pack,
    pub room: Id,
}

/// What a handler says.
#[derive(Debug, Drop)]
pub enum Said {
    Act(Act),
    /// The channel, and a text, a truth value or a whole number of 64 bits.
    Publish(Text, Value),
}
