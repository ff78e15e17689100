use schema_model::Schema;
use std::alloc::Global;

/// State bytes, with the schema and the rows that are known while they are read.
#[derive(Drop)]
pub struct Source<'a, K> {
    pub alloc: Global,
    pub schema: &'a Schema,
    pub known: &'a K,
    pub bytes: &'a [u8],
}
