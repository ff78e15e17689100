//! The places of a list whose items are taken out.
use lists::Keyed;

/// A place of a list: an item under its number, or a hole where one was.
#[derive(Drop)]
pub struct Slot<T> {
    pub number: u32,
    pub item: Option<T>,
}

impl<T: Drop> Keyed for Slot<T> {
    ghost key = { λ s. s.number };

    fn key(&self) -> u32 {
        self.number
    }
}
