//! A client's core: the rows that it makes of its server's frames, and what each frame is to it.
#![tactic(auto)]

mod client;

pub use client::ClientCore;
pub use life_model::{ClientFault, ClientOut};
