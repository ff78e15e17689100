use crate::action::Action;
use crate::expression::Expression;
use crate::statement::Opener;
use frame_model::MsgKind;
use schema_model::Text;

/// When a handler runs.
#[derive(Debug, Drop)]
pub enum When {
    Create,
    Join,
    Message(MsgKind),
    Leave,
    Tick,
    /// Something is published in a channel.
    Topic(Text),
}

/// A line of a script.
#[derive(Debug, Drop)]
pub enum ScriptLine {
    /// The definition of a room, whose handlers follow.
    Room,
    End,
    On(When),
    Done,
    Let(Text, Expression),
    Do(Action),
    Open(Opener),
    /// Closes an `if`.
    Fi,
    /// Closes an `each` or a `pmembers`.
    Next,
}
