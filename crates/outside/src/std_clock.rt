ghost use Rattle.std.specs.Prelude.{◌≡◌, ◌≤◌, None};

use crate::clock::Clock;
use std::marker::Model;
use std::rt;
use std::time::Instant;

/// The clock of a runtime of std: milliseconds since its first reading. Where it can't be read it gives
/// its last answer again, and 0 before the first. Contracts see it as its last answer.
#[derive(Drop)]
pub struct StdClock<'r, R> {
    runtime: &'r R,
    start: Option<Instant>,
    last: u64,
}

impl<'r, R> Model for StdClock<'r, R> {
    ghost use Rattle.std.specs.Prelude.{ℕ};

    ghost Value = { ℕ };

    ghost view = { λ c. c.last };
}

impl<'r, R> StdClock<'r, R> {
    /// It reads nothing yet.
    pub fn new(runtime: &'r R) -> Self
        ensures { result ≡ 0 }
    {
        StdClock {
            runtime,
            start: None,
            last: 0,
        }
    }
}

impl<R: rt::Clock> Clock for StdClock<'_, R> {
    ghost coming = { λ _. None };

    fn now(&mut self) -> u64
        ensures later { self.old ≤ result }
        ensures last { self.new ≡ result }
    {
        if let Ok(present) = Instant::now(self.runtime) {
            let start = *self.start.get_or_insert(present);
            let passed = present.duration_since(start).as_millis();
            self.last = self.last.max(u64::try_from(passed).unwrap_or(u64::MAX));
        }
        self.last
    }
}
