ghost use Rattle.std.specs.Prelude.{◌≤◌, length, IfOk, OnErr, IfSome};
ghost use Rattle.outside.specs.Faults.{HasCause};
ghost use Rattle.outside.specs.Streams.{Hands, Keeps};

use crate::fault::Failed;

/// Where bytes come from.
pub trait Source {
    ghost use Rattle.std.specs.Prelude.{ℕ, List, Option};

    /// How often it has failed.
    ghost faults: { Self → ℕ };

    /// The bytes that it has left, where it shows them.
    ghost left: { Self → Option (List ℕ) };

    /// Reads into a prefix of the buffer, and answers how many bytes it read. 0 bytes into a buffer
    /// that isn't empty are the end of the input.
    fn read(&mut self, into: &mut [u8]) -> Result<usize, Failed>
        ensures within { IfOk result (λ count. count ≤ length into.old) }
        ensures bytes { IfOk result (λ count. IfSome (left self.old) (λ bytes. Hands bytes (left self.new) count into.new)) }
        ensures err { OnErr result (Keeps (left self.old) (left self.new)) }
        ensures cause { HasCause (faults self.old) (faults self.new) result };
}
