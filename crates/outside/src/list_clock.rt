ghost use Rattle.std.specs.Prelude.{◌≡◌, ◌∷◌, Some};
ghost use Rattle.outside.specs.Spent.{first_of, after_first};

use crate::clock::Clock;
use crate::last_again::LastAgain;
use std::marker::Model;

/// A clock that gives listed moments, in milliseconds, and the last one again and again.
#[derive(Drop)]
pub struct ListClock {
    moments: LastAgain<u64>,
}

impl Model for ListClock {
    ghost use Rattle.std.specs.Prelude.{ℕ, List};

    ghost Value = { List ℕ };

    ghost view = { λ c. c.moments };
}

impl ListClock {
    /// The first moment and the further ones. It takes no memory.
    pub fn new(first: u64, further: Vec<u64>) -> Self
        ensures { result ≡ first ∷ further.items }
    {
        ListClock {
            moments: LastAgain::new(first, further),
        }
    }
}

impl Clock for ListClock {
    ghost coming = { λ c. Some c };

    fn now(&mut self) -> u64
        ensures moment { first_of self.old ≡ Some result }
        ensures rest { self.new ≡ after_first self.old }
    {
        self.moments.give()
    }
}
