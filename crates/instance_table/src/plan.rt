use crate::totals::Totals;
use schema_model::RefNum;
use state_model::TableFault;

/// What a command found and changes: it isn't looked for again.
#[derive(Clone, Copy, Debug)]
pub struct Located {
    /// Where its row stands among the rows.
    pub place: usize,
    /// The number of the item of its key or value, where there is one.
    pub number: Option<u32>,
}

/// What a command that isn't refused does to the row that it changes.
#[derive(Clone, Copy, Debug)]
pub struct Plan {
    pub located: Located,
    /// The link in the place that it writes or takes out.
    pub before: Option<RefNum>,
    /// The totals after it.
    pub totals: Totals,
}

/// What a command comes to.
#[derive(Clone, Copy, Debug)]
pub enum Verdict {
    Refused(TableFault),
    /// It makes a row.
    Makes,
    /// It changes the row of this number.
    Changes(RefNum, Plan),
}
