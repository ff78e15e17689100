ghost use Rattle.std.specs.Prelude.{◌<◌, ◌≤◌, length, take, IfOk, OnErr};
ghost use Rattle.outside.specs.Faults.{HasCause};
ghost use Rattle.outside.specs.Streams.{Takes, TakesPrefix};

use crate::fault::Failed;

/// Where bytes go.
pub trait Sink {
    ghost use Rattle.std.specs.Prelude.{ℕ, List, Option};

    /// How often it has failed.
    ghost faults: { Self → ℕ };

    /// The bytes that it has taken, where it shows them.
    ghost taken: { Self → Option (List ℕ) };

    /// Takes a prefix of the bytes, and answers how many it took. To take none of a piece that isn't
    /// empty is a failure. A call that fails may have taken a prefix all the same.
    fn write(&mut self, from: &[u8]) -> Result<usize, Failed>
        ensures within { IfOk result (λ count. count ≤ length from.now) }
        ensures some { IfOk result (λ count. 0 < length from.now → 0 < count) }
        ensures taken { IfOk result (λ count. Takes (taken self.old) (taken self.new) (take count from.now)) }
        ensures part { OnErr result (TakesPrefix (taken self.old) (taken self.new) from.now) }
        ensures cause { HasCause (faults self.old) (faults self.new) result };
}
