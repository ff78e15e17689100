//! A row with who holds it.
use crate::body::Body;
use crate::holders::Holders;

/// A row, who holds it, and whether it waits for the next sweep to look at it.
#[derive(Drop)]
pub struct Node {
    pub body: Body,
    pub holders: Holders,
    pub waits: bool,
}
