//! How the program ends.
ghost use Rattle.std.specs.Prelude.{◌≡◌};
ghost use Rattle.room_server.specs.Endings.{status_of};

/// How the program ends.
#[derive(Clone, Copy, Debug, PartialEq, Eq)]
pub enum Ending {
    /// All was read and written.
    Done,
    /// The words are no command's.
    Usage,
    /// The text isn't of its form.
    Refused,
    /// The source failed.
    ReadFailed,
    /// The sink failed.
    WriteFailed,
    /// Out of memory.
    Memory,
}

impl Ending {
    /// The status of the process.
    pub fn status(self) -> u8
        ensures { result ≡ status_of self }
    {
        match self {
            Ending::Done => 0,
            Ending::Usage => 2,
            Ending::Refused => 3,
            Ending::ReadFailed => 4,
            Ending::WriteFailed => 5,
            Ending::Memory => 7,
        }
    }
}
