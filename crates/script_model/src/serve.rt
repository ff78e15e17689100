use lists::Bytes;
use text_model::Schedule;

/// What is served: definitions without events, and the handlers of their rooms as a text.
#[derive(Debug, Drop)]
pub struct ServeText {
    pub schedule: Schedule,
    /// The number of the first `room` line.
    pub first: u32,
    /// From that line to the end of the text.
    pub rest: Bytes,
}
