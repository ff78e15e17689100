//! A slot of an index.

/// A key of an entry, and the place of the entry.
#[derive(Clone, Copy)]
pub struct Slot {
    pub key: u128,
    pub at: u32,
}
