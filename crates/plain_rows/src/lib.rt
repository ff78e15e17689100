//! Calls on plain rows: what is reached, what is freed, and what a view is permitted to see.
#![tactic(auto)]

mod chosen;
mod field_table;
mod freed_rows;
mod holder_counts;
mod links;
mod members;
mod number_set;
mod reached_rows;
mod shown;
mod shown_rows;
mod view_fields;
mod views;

pub use freed_rows::{freed, freed_of};
pub use number_set::NumberSet;
pub use reached_rows::reached;
pub use state_model::{
    Command, FieldValue, FieldValues, MapItem, MapItems, Row, RowEntry, Rows, SetItem, SetItems,
    TableFault, Values,
};
pub use steps::Steps;
pub use views::permitted;
