//! Frames of the client protocol, both ways. After Colyseus 0.16.
#![tactic(auto)]

mod kind;
mod reading;
mod server;
mod writing;

pub use frame_model::{ClientFrame, FrameFault, MsgKind, ServerFrame};
pub use reading::{read_client, read_server};
pub use writing::{error_frame, write_client, write_message, write_raw, write_server};
