//! What clients ask for by text: requests for a seat, and openings of one.
use lists::Text;
use room_model::Texts;
use schema_model::Id;
use thiserror::Error;

/// How a request asks for a seat.
#[derive(Clone, Copy, Debug, PartialEq, Eq)]
pub enum Method {
    /// In a room that is open, or else in a new one.
    JoinOrCreate,
    /// In a new room.
    Create,
    /// In a room that is open.
    Join,
    /// In the room of an id.
    JoinById,
    /// In the seat that was kept under a token.
    Reconnect,
}

/// A request for a seat. Its name is that of a definition, or the id of a room where the method is by id or by a token.
/// Its criteria are one text for each key of the definition's filter, in its order: the compact JSON text of the value,
/// or the empty text where it is absent; a request by id or by a token has none.
#[derive(Debug, Drop)]
pub struct Request {
    pub method: Method,
    pub name: Text,
    pub criteria: Texts,
    pub token: Option<Id>,
}

/// A room as requests see it: its definition by its position, and its criteria as those of a request.
#[derive(Debug, Drop)]
pub struct Listing {
    pub id: Id,
    pub def: u32,
    pub locked: bool,
    pub in_use: u32,
    pub max: u32,
    pub criteria: Texts,
}

/// What a request leads to; a number is a position among the rooms or the definitions.
#[derive(Debug, Drop)]
pub enum Decision {
    /// A code and a text.
    Refuse(u32, Text),
    Join(u32),
    Make(u32),
    /// The room, and the session whose seat was kept.
    Return(u32, Id),
}

/// What opens a seat.
#[derive(Clone, Copy, Debug, PartialEq, Eq)]
pub struct Opening {
    pub process: Id,
    pub room: Id,
    pub session: Id,
    pub token: Option<Id>,
}

/// Why a target and a body are no request, in the order in which the causes are tested.
#[derive(Clone, Copy, Debug, PartialEq, Eq, Error)]
pub enum AskFault {
    #[error("no method")]
    NoMethod,
    #[error("invalid payload")]
    BadPayload,
    #[error("no handler")]
    NoHandler,
    #[error("out of memory")]
    Memory,
}
