//! Scalars as bytes, both ways.
#![tactic(auto)]

mod fixed;
mod number;
mod scalar;
mod text;

pub use fixed::{get_fixed, put_fixed};
pub use number::{get_number, put_number};
pub use scalar::{get_scalar, put_scalar};
pub use schema_model::{ReadFault, ScalarFault};
pub use text::{get_text, put_text};
