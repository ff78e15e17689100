ghost use Rattle.std.specs.Prelude.{◌≡◌, ◌∷◌, Some, true};
ghost use Rattle.std.specs.List.{list_all};
ghost use Rattle.schema_model.specs.Ids.{is_id};
ghost use Rattle.outside.specs.Spent.{first_of, after_first};

use crate::ids::Ids;
use crate::last_again::LastAgain;
use schema_model::Id;
use std::marker::Model;

/// Draws listed ids, and the last one again and again.
#[derive(Drop)]
pub struct ListIds {
    ids: LastAgain<Id>,
}

impl Model for ListIds {
    ghost use Rattle.std.specs.Prelude.{◌≡◌, ℕ, List, true};
    ghost use Rattle.std.specs.List.{list_all};
    ghost use Rattle.schema_model.specs.Ids.{is_id};

    ghost Value = { List (List ℕ) };

    ghost view = { λ i. i.ids };

    ghost invariant = { λ i. list_all is_id i.ids ≡ true };
}

impl ListIds {
    /// The first id and the further ones, which have the characters of ids, as `is_id` tells. It takes no memory.
    pub fn new(first: Id, further: Vec<Id>) -> Self
        requires { list_all is_id (first ∷ further.items) ≡ true }
        ensures { result ≡ first ∷ further.items }
    {
        ListIds {
            ids: LastAgain::new(first, further),
        }
    }
}

impl Ids for ListIds {
    ghost coming = { λ i. Some i };

    fn draw(&mut self) -> Id
        ensures id { is_id result ≡ true }
        ensures drawn { first_of self.old ≡ Some result }
        ensures rest { self.new ≡ after_first self.old }
    {
        self.ids.give()
    }
}
