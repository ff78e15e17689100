use crate::items::Items;
use crate::slots::Slots;
use schema_model::{Home, TypeNum};
use state_model::{FieldValues, SetItem};
use trees::Tree;

/// The items of a set while operations run.
pub type Elements = Tree<SetItem>;

/// A row while operations run on it: the slots of an array may be holes.
#[derive(Drop)]
pub enum Holder {
    Fields(TypeNum, FieldValues),
    Items(Home, Items),
    Slots(Home, Slots),
    Elements(Home, Elements),
}
