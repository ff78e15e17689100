//! The text of a schema: read, with its first fault, and written.
#![tactic(auto)]

mod draft;
pub mod form;
mod kinds;
mod names;
mod read;
mod resolve;
mod take;
mod words;
mod write;

pub use read::read_schema;
pub use text_model::SchemaFault;
pub use write::write_schema;
