//! The members of a view.
ghost use Rattle.std.specs.Prelude.{◌≡◌, IfOk};
ghost use Rattle.state_model.specs.Shown.{is_member};
ghost use Rattle.plain_rows.specs.Members.{SameMembers};

use schema_model::{Memory, Pair, RefNum, Tag};
use std::alloc::Global;
use std::collections::BTreeSet;
use std::marker::Model;

/// The members of a view, each once. Contracts see them as a list of pairs.
#[derive(Drop)]
pub struct Members {
    pairs: BTreeSet<(u32, i16)>,
}

impl Model for Members {
    ghost use Rattle.std.specs.Prelude.{List};
    ghost use Rattle.schema_model.specs.declared.place.Pair.{Pair};
    ghost use Rattle.plain_rows.specs.Members.{pairs_of};

    ghost Value = { List Pair };

    ghost view = { λ m. pairs_of m.pairs.keys };
}

// A pair as it stands in the set.
fn key_of(who: RefNum, tag: Tag) -> (u32, i16)
    ensures { result ≡ (who, tag) }
{
    (who.0, tag.0)
}

impl Members {
    /// The same members as these pairs.
    pub fn of(alloc: Global, pairs: &[Pair]) -> Result<Members, Memory>
        ensures { IfOk result (λ members. SameMembers members pairs.now) }
    {
        let mut members = BTreeSet::new(alloc);
        for pair in pairs {
            members.insert(key_of(pair.who, pair.tag))?;
        }
        Ok(Members { pairs: members })
    }

    /// The pair is a member. It takes steps as the logarithm of how many there are.
    pub fn has(&self, who: RefNum, tag: Tag) -> bool
        ensures { result ≡ is_member self.now who tag }
    {
        self.pairs.contains(&key_of(who, tag))
    }
}
