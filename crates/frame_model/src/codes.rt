//! The first bytes of frames, and the codes of errors and of closings. After Colyseus 0.16.

/// A server's welcome; a client's acknowledgement of it.
pub const JOIN_ROOM: u8 = 10;

/// An error, with its code and text.
pub const ERROR: u8 = 11;

/// A client that leaves.
pub const LEAVE_ROOM: u8 = 12;

/// A message, whose payload is MessagePack.
pub const ROOM_DATA: u8 = 13;

/// A full state.
pub const ROOM_STATE: u8 = 14;

/// A patch of the state.
pub const ROOM_STATE_PATCH: u8 = 15;

/// A message of raw bytes.
pub const ROOM_DATA_BYTES: u8 = 17;

// ---- why a request or an opening is refused, or a frame of a client

/// No such method, or no room definition of the name.
pub const NO_HANDLER: u16 = 4210;

/// No room meets the criteria.
pub const INVALID_CRITERIA: u16 = 4211;

/// No such room, or it is locked.
pub const INVALID_ROOM: u16 = 4212;

/// A drawn id is in use.
pub const UNHANDLED: u16 = 4213;

/// The seat lapsed, or was never reserved.
pub const EXPIRED: u16 = 4214;

/// What was sent can't be read.
pub const INVALID_PAYLOAD: u16 = 4217;

// ---- why a connection is closed

/// A plain connection gave what is no request: a protocol error of RFC 6455.
pub const PROTOCOL_ERROR: u16 = 1002;

/// The client left.
pub const CONSENTED: u16 = 4000;

/// The opening was refused.
pub const WITH_ERROR: u16 = 4002;
