use schema_model::{ConnNum, Id};

/// A connection with its room and session.
#[derive(Clone, Copy, Debug, PartialEq, Eq)]
pub struct HubConn {
    pub conn: ConnNum,
    pub room: Id,
    pub session: Id,
}
