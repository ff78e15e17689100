//! Whether bytes are JSON, and whether bytes with escapes are text, told without taking memory.
#![tactic(auto)]

mod document;
mod escaped;
mod lexer;
mod mark;
mod quoted;
mod text;
mod word;

pub use document::{MAX_DEPTH, is_json};
pub use escaped::is_escaped_text;
