//! State frames decoded: the rows that a client makes of them.
#![tactic(auto)]

mod decoder;
mod draft;
mod drafts;
mod open_row;
mod reading;
mod run;
mod whole_row;

pub use decoder::Decoder;
pub use wire_model::OpFault;
