use state_model::TableFault;
use thiserror::Error;

/// Why an act or an event was refused, in the order in which the causes are tested.
#[derive(Clone, Copy, Debug, PartialEq, Eq, Error)]
pub enum Refusal {
    #[error("no such room")]
    NoRoom,
    #[error("the connection has no session")]
    NoConn,
    #[error("the connection has a session")]
    ConnInUse,
    #[error("no such session in the room")]
    NoSession,
    #[error("the session is in no state for this")]
    NotHere,
    #[error("too many messages are queued")]
    QueueFull,
    #[error("the view has too many members")]
    ViewFull,
    /// It never carries `Memory`.
    #[error("{0}")]
    Table(TableFault),
}
