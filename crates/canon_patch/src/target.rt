//! What the operations of a patch lead to.
use schema_model::Schema;
use state_model::Rows;
use std::alloc::Global;

/// What operations lead to: the new rows, and their schema.
#[derive(Drop)]
pub(crate) struct Target<'a> {
    pub alloc: Global,
    pub schema: &'a Schema,
    pub rows: &'a Rows,
}
