//! What a state is made of: classes, fields and homes, values and places, and the bytes of scalars.
#![tactic(auto)]

pub mod class;
pub mod fault;
mod id;
mod kept;
mod known;
mod limits;
mod lookup;
mod number;
pub mod place;
pub mod scalar;
mod schema;
pub mod value;

pub use class::{Class, Classes, FieldDecl, Fields, Item, Shape};
pub use fault::{ReadFault, ScalarFault};
pub use id::{has_id_bytes, id_of, id_text, is_id};
pub use known::{know_number, know_text, know_value};
pub use limits::{LAST_NUMBER, MOST_CLASSES, MOST_FIELDS};
pub use lists::{Bytes, Memory, Seq, Text, TextFault};
pub use number::{ConnNum, Id, RefNum, Tag, TypeNum};
pub use place::{Home, Key, Pair, Place};
pub use scalar::ScalarKind;
pub use schema::Schema;
pub use value::Value;
