ghost use Rattle.std.specs.Prelude.{◌≡◌, ◌∷◌, Some};
ghost use Rattle.outside.specs.Spent.{first_of, after_first};

use std::marker::Model;
use std::vec::IntoIter;

/// A list that gives its last entry again when it is spent. It always has an entry to give.
#[derive(Drop)]
pub(crate) struct LastAgain<T> {
    first: T,
    further: IntoIter<T>,
}

impl<T> Model for LastAgain<T> {
    ghost use Rattle.std.specs.Prelude.{List, ◌∷◌};
    ghost use Rattle.std.specs.Vec.Iter.{into_iter_items};

    ghost Value = { List T };

    ghost view = { λ l. l.first ∷ into_iter_items l.further };
}

impl<T: Copy> LastAgain<T> {
    /// The first entry and the further ones.
    pub fn new(first: T, further: Vec<T>) -> Self
        ensures { result ≡ first ∷ further.items }
    {
        LastAgain {
            first,
            further: further.into_iter(),
        }
    }

    /// The next entry.
    pub fn give(&mut self) -> T
        ensures given { first_of self.old ≡ Some result }
        ensures rest { self.new ≡ after_first self.old }
    {
        let given = self.first;
        if let Some(next) = self.further.next() {
            self.first = next;
        }
        given
    }
}
