//! The state of a room as plain rows: rows, commands, and what of them a view shows.
#![tactic(auto)]

pub mod command;
pub mod place;
pub mod row;
mod rows;
mod worded;

pub use command::{Command, TableFault};
pub use place::{Expected, field_expects, is_filtered, item_expects};
pub use row::{
    FieldValue, FieldValues, MapItem, MapItems, Row, RowEntry, SetItem, SetItems, Values,
};
pub use rows::Rows;
pub use worded::know_texts;
