ghost use Rattle.std.specs.Prelude.{◌≡◌, ◌∷◌, [], ◌++◌, IfOk, OnOk, OnErr, IfSome, Some, if◌then◌else◌, is_ok};
ghost use Rattle.outside.specs.Faults.{HasWireCause};
ghost use Rattle.outside.specs.Happenings.{next_of, rest_of};
ghost use Rattle.outside.specs.declared.wire.WireOut.TheVariants.{Sent, Closed, Replied};

use crate::fault::WireFault;
use schema_model::{Bytes, ConnNum, Text};

/// What a wire has to tell.
#[derive(Debug, Drop)]
pub enum Happening {
    /// Nothing is ready.
    Idle,
    /// Bytes of a plain connection.
    Piece(ConnNum, Bytes),
    /// A plain connection ended.
    Ended(ConnNum),
    /// A WebSocket opened, with its request target.
    Opened(ConnNum, Text),
    /// A binary message of a WebSocket.
    Frame(ConnNum, Bytes),
    /// A WebSocket was lost.
    Dropped(ConnNum),
}

/// What a wire was given to carry.
#[derive(Debug, Drop)]
pub enum WireOut {
    Sent(ConnNum, Bytes),
    Closed(ConnNum, u16),
    Replied(ConnNum, Bytes),
}

/// The connections. One that died is no fault of the wire: it comes as a later `Dropped`, and what is
/// sent to it is taken and lost.
pub trait Wire {
    ghost use Rattle.std.specs.Prelude.{ℕ, List, Option};
    ghost use Rattle.outside.specs.declared.wire.Happening.{Happening};
    ghost use Rattle.outside.specs.declared.wire.WireOut.{WireOut};

    /// How often it has failed.
    ghost faults: { Self → ℕ };

    /// What is still to happen, where it shows it.
    ghost coming: { Self → Option (List Happening) };

    /// What it was given to carry, where it shows it.
    ghost carried: { Self → Option (List WireOut) };

    /// What happens next; `now` is the present moment in milliseconds.
    fn next(&mut self, now: u64) -> Result<Happening, WireFault>
        ensures next { IfOk result (λ happening. IfSome (coming self.old) (λ list.
            (happening ≡ next_of list) × (coming self.new ≡ Some (rest_of list)))) }
        ensures err { OnErr result (coming self.new ≡ coming self.old) }
        ensures carried { carried self.new ≡ carried self.old }
        ensures cause { HasWireCause (faults self.old) (faults self.new) result };

    /// Sends a binary message.
    fn send(&mut self, conn: ConnNum, bytes: &[u8]) -> Result<(), WireFault>
        ensures carried { IfSome (carried self.old) (λ before.
            carried self.new ≡ Some (if is_ok result then before ++ Sent conn bytes.now ∷ [] else before)) }
        ensures coming { coming self.new ≡ coming self.old }
        ensures cause { HasWireCause (faults self.old) (faults self.new) result };

    /// Closes a WebSocket with a code.
    fn close(&mut self, conn: ConnNum, code: u16) -> Result<(), WireFault>
        ensures carried { IfSome (carried self.old) (λ before.
            carried self.new ≡ Some (if is_ok result then before ++ Closed conn code ∷ [] else before)) }
        ensures coming { coming self.new ≡ coming self.old }
        ensures cause { HasWireCause (faults self.old) (faults self.new) result };

    /// Answers the request of a plain connection with a JSON text, and ends the connection.
    fn reply(&mut self, conn: ConnNum, json: &[u8]) -> Result<(), WireFault>
        ensures carried { IfSome (carried self.old) (λ before.
            carried self.new ≡ Some (if is_ok result then before ++ Replied conn json.now ∷ [] else before)) }
        ensures coming { coming self.new ≡ coming self.old }
        ensures cause { HasWireCause (faults self.old) (faults self.new) result };
}
