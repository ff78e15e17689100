//! Scripts of rooms: what a line of a script is, and what a handler does, statement by statement; and what rooms share.
#![tactic(auto)]

pub mod action;
pub mod expression;
pub mod facts;
pub mod fault;
pub mod line;
mod names;
pub mod operand;
pub mod serve;
pub mod statement;

pub use action::Action;
pub use expression::{Expression, Operator};
pub use facts::{Facts, Said};
pub use fault::{BodyFault, PresenceFault, ScriptFault};
pub use line::{ScriptLine, When};
pub use names::{class_named, field_named};
pub use operand::Operand;
pub use serve::ServeText;
pub use statement::{Block, Handler, Opener, Statement};
