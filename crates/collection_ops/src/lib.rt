//! The items of one collection: a map, an array or a set, each call exact.
#![tactic(auto)]

mod array_body;
pub mod fault;
mod map_body;
mod set_body;
mod value_index;

pub use array_body::ArrayBody;
pub use fault::ItemFault;
pub use map_body::MapBody;
pub use set_body::SetBody;
pub use value_index::ValueIndex;
