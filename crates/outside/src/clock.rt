ghost use Rattle.std.specs.Prelude.{◌≡◌, IfSome, Some};
ghost use Rattle.outside.specs.Spent.{first_of, after_first};

/// Tells the moment.
pub trait Clock {
    ghost use Rattle.std.specs.Prelude.{ℕ, List, Option};

    /// The moments that it is still to give, where it shows them. It gives the last one again.
    ghost coming: { Self → Option (List ℕ) };

    /// The present moment, in milliseconds.
    fn now(&mut self) -> u64
        ensures moment { IfSome (coming self.old) (λ list. first_of list ≡ Some result) }
        ensures rest { IfSome (coming self.old) (λ list. coming self.new ≡ Some (after_first list)) };
}
