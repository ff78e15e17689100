//! Laws of the bytes of state frames: what they are decoded to.
#![tactic(auto)]

ghost use Rattle.byte_laws.specs.BytesLaw.{BytesTell, FrameDecodes, FullDecodes, JoinedDecodes, PartsHaveBytes};

/// The state bytes of a tick are decoded, never refused, over a client's old view to exactly its new one.
pub fn frame_decodes()
    ensures { FrameDecodes }
{}

/// The state bytes of a full state are decoded over the root alone to exactly a client's view.
pub fn full_decodes()
    ensures { FullDecodes }
{}

/// A full state and the patches behind it are decoded, one after another, to exactly a client's view at the last tick.
pub fn joined_decodes()
    ensures { JoinedDecodes }
{}

/// Both parts of a state frame have bytes, the rows that they lead from and to have no array that is too long to go by
/// position, and the shared part as it is written makes of a client's old view what its operations make of it.
pub fn parts_have_bytes()
    ensures { PartsHaveBytes }
{}

/// The state bytes of a tick are none exactly where its frame has no operation.
pub fn bytes_tell()
    ensures { BytesTell }
{}
