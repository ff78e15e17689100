use schema_model::Text;

/// What a statement works with.
#[derive(Debug, Drop)]
pub enum Operand {
    /// A variable, by its name; one that isn't set is nil.
    Variable(Text),
    /// The root's row.
    Root,
    /// The session that the handler is about, as a text; nil where there is none.
    Sender,
    /// What came with the event.
    Item,
    Whole(i128),
    Str(Text),
    Truth(bool),
}
