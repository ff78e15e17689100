//! What a request leads to.
use lists::Text;
use room_model::Texts;
use schema_model::Id;

/// What a request leads to, with a room by its number in the order of creation: a refusal with its code and text, a seat in
/// a room, a new room of a definition with the criteria of its creation, or the kept seat of a session.
#[derive(Drop)]
pub enum Outcome {
    Refuse(u32, Text),
    Join(u64),
    Make(u32, Texts),
    Return(u64, Id),
}
