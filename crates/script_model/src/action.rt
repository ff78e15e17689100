use crate::operand::Operand;
use frame_model::MsgKind;
use schema_model::{Tag, Text};

/// A statement that does one thing. What it works on comes first; a `Text` that comes second is the name of a field.
#[derive(Debug, Drop)]
pub enum Action {
    Put(Operand, Text, Operand),
    Unset(Operand, Text),
    /// The map, the key and the value.
    PutKey(Operand, Operand, Operand),
    DelKey(Operand, Operand),
    Push(Operand, Operand),
    /// The array, the position and the value.
    SetAt(Operand, Operand, Operand),
    DelAt(Operand, Operand),
    Add(Operand, Operand),
    Del(Operand, Operand),
    Clear(Operand),
    /// The session, the row and the tag.
    ViewAdd(Operand, Operand, Tag),
    ViewDel(Operand, Operand, Tag),
    /// The session, what the message is about, and its payload.
    Send(Operand, MsgKind, Operand),
    ToAll(MsgKind, Operand),
    Kick(Operand, u16),
    Keep(Operand, u64),
    Lock,
    Unlock,
    /// Stores a text under a key of the presence.
    Store(Operand, Operand),
    Forget(Operand),
    /// Adds a text to a stored set.
    Include(Operand, Operand),
    Exclude(Operand, Operand),
    /// Subscribes the handler's room to a channel.
    Subscribe(Text),
    Publish(Text, Operand),
}
