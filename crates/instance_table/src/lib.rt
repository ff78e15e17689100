//! The shared graph under typed numbers: its rows, changed in place by commands, and who holds each.
#![tactic(auto)]

mod amounts;
mod behind;
pub mod body;
mod cause;
mod changes;
mod edits;
mod fixed_room;
mod found;
mod graph;
mod holders;
mod holding;
mod links;
mod made;
mod node;
mod nodes;
mod parts;
mod plan;
mod refusal;
mod roomy_list;
mod spare_walk;
mod sweeping;
mod table;
mod totals;
mod typed;
mod walk;
mod walk_room;
mod way;

pub use body::Body;
pub use fixed_room::FixedRoom;
pub use table::Table;
