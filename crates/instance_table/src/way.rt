//! The ways from row to row.

/// The way of a walk: along the links of the rows that it comes to, or along their holders.
#[derive(Clone, Copy)]
pub enum Way {
    Links,
    Holders,
}
