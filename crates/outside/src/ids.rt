ghost use Rattle.std.specs.Prelude.{◌≡◌, IfSome, Some, true};
ghost use Rattle.schema_model.specs.Ids.{is_id};
ghost use Rattle.outside.specs.Spent.{first_of, after_first};

use schema_model::Id;

/// Draws ids.
pub trait Ids {
    ghost use Rattle.std.specs.Prelude.{ℕ, List, Option};

    /// The ids that it is still to give, where it shows them. It gives the last one again.
    ghost coming: { Self → Option (List (List ℕ)) };

    /// Draws an id: nine characters of `A-Z a-z 0-9 - _`.
    fn draw(&mut self) -> Id
        ensures id { is_id result ≡ true }
        ensures drawn { IfSome (coming self.old) (λ list. first_of list ≡ Some result) }
        ensures rest { IfSome (coming self.old) (λ list. coming self.new ≡ Some (after_first list)) };
}
