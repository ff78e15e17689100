//! What a view has to know of fields, looked up by class and index.
use lists::Seq;
use schema_model::{Shape, Tag};

/// What a view has to know of a field.
#[derive(Clone, Copy)]
pub struct ViewField {
    /// The class that declares it, by its place in the schema.
    pub class: usize,
    pub shape: Shape,
    pub tag: Option<Tag>,
}

/// The fields of each class: its parent's, and then its own.
pub type ViewFields = Seq<Seq<ViewField>>;
