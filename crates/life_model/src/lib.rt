//! A client's life in a run: its record, what a record is sent, and what is promised of every life; and what a client makes of
//! the frames that it gets.
#![tactic(auto)]

pub mod client;

pub use client::{ClientFault, ClientOut};
