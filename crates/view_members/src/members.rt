ghost use Rattle.std.specs.Prelude.{◌≡◌, ◌+◌, [], ◌∷◌, IfOk, length, nat_le, slice_get};
ghost use Rattle.state_model.specs.Members.{no_members, changed_pairs, ticked};
ghost use Rattle.state_model.specs.Shown.{is_member};
ghost use Rattle.view_members.specs.Sets.{Adds, AreKept, without_all, without_row};

use crate::fault::MemberFault;
use crate::rank::rank_of;
use crate::sets::Sets;
use crate::turns::{
    add_each, forget_passed, has_room, remove, remove_row, settle_changed, take_room,
};
use lists::Memory;
use schema_model::{Pair, RefNum};
use std::alloc::Global;
use std::marker::Model;
use std::sync::ledger::Ledger;
use steps::Steps;

/// The members of one client's view: the pairs now, at the last tick, and kept since then. At most
/// 65,536 pairs are kept: a pair that leaves counts until the tick ends. Every pair that comes takes
/// its memory then; leaving and the end of a tick take none.
#[derive(Drop)]
pub struct Members {
    sets: Sets,
}

impl Model for Members {
    ghost use Rattle.std.specs.Prelude.{◌≡◌, ◌≤◌, [], length};
    ghost use Rattle.state_model.specs.Members.{Members as Seen};
    ghost use Rattle.view_members.specs.Standings.{ranks_of, is_spare, members_of};

    ghost Value = { Seen };

    ghost view = { λ m. members_of m.sets };

    ghost invariant = { λ m. record { spare : ranks_of is_spare m.sets ≡ []; few : length m.sets ≤ 65536 } };
}

impl Members {
    /// No members. They take no memory.
    pub fn new(alloc: Global) -> Result<Members, Memory>
        ensures { IfOk result (λ m. m ≡ no_members) }
    {
        Ok(Members {
            sets: Sets::new(alloc),
        })
    }

    /// Whether so many pairs more, of which none is kept, wouldn't be too many.
    pub fn has_room(&self, more: usize) -> bool
        ensures { result ≡ nat_le (length self.now.kept + more) 65536 }
    {
        self.sets.keeps();
        has_room(&self.sets, more)
    }

    /// Adds pairs, in any order and with repeats: all of them or none. Where they would be too many
    /// it answers `ViewFull`, whatever memory does. Takes logarithmic time for each, but for the
    /// move of changed pairs behind it; where memory runs out, the square of their number.
    pub fn add_all(&mut self, pairs: &[Pair]) -> Result<(), MemberFault>
        ensures { Adds pairs.now self.old self.new result }
    {
        take_room(&mut self.sets, pairs)?;
        add_each(&mut self.sets, pairs);
        Ok(())
    }

    /// Takes a pair out, if it is a member. Takes logarithmic time, but for the move of changed
    /// pairs behind it.
    pub fn remove(&mut self, pair: Pair)
        ensures { self.new ≡ without_all (pair ∷ []) self.old }
    {
        remove(&mut self.sets, rank_of(pair));
    }

    /// Takes pairs out, as far as they are members.
    pub fn remove_all(&mut self, pairs: &[Pair])
        ensures { self.new ≡ without_all pairs.now self.old }
    {
        for pair in pairs {
            self.remove(*pair);
        }
    }

    /// Takes all pairs of a row out. Takes as long as `remove` for each tag of the row.
    pub fn forget_instance(&mut self, who: RefNum)
        ensures { self.new ≡ without_row who self.old }
    {
        remove_row(&mut self.sets, who);
    }

    /// The pairs now, at the last tick and kept rise by row and then by tag, and those now are among those kept. It does
    /// nothing else than to say so.
    pub fn know(&self)
        ensures { AreKept self.now }
    {
        self.sets.keeps();
    }

    /// The pairs now, rising by row and then by tag.
    pub fn pairs(&self) -> Result<Vec<Pair>, Memory>
        ensures { IfOk result (λ ps. ps.items ≡ self.now.now) }
    {
        self.sets.pairs()
    }

    /// Whether a pair is a member now. Takes logarithmic time.
    pub fn has<L: Ledger>(&self, pair: Pair, steps: &mut Steps<L>) -> bool
        ensures value { result ≡ is_member self.now.now pair.who pair.tag }
        ensures cost { steps.new ≡ steps.old + 1 }
    {
        steps.tick();
        match self.sets.get(rank_of(pair)) {
            Some(standing) => standing.is_member(),
            None => false,
        }
    }

    /// Whether a pair was a member when the last tick ended. Takes logarithmic time.
    pub fn had_at_tick<L: Ledger>(&self, pair: Pair, steps: &mut Steps<L>) -> bool
        ensures value { result ≡ is_member self.now.last pair.who pair.tag }
        ensures cost { steps.new ≡ steps.old + 1 }
    {
        steps.tick();
        match self.sets.get(rank_of(pair)) {
            Some(standing) => standing.was_member(),
            None => false,
        }
    }

    /// The n-th of the pairs that are members now or were at the last tick, but not both, counted
    /// from 0 and rising. Takes constant time.
    pub fn nth_changed<L: Ledger>(&self, n: u32, steps: &mut Steps<L>) -> Option<Pair>
        ensures value { result ≡ slice_get (changed_pairs self.now) n }
        ensures cost { steps.new ≡ steps.old + 1 }
    {
        steps.tick();
        self.sets.changed_at(n as usize)
    }

    /// Ends a tick: the pairs now are those of the last tick and those kept. Takes logarithmic time
    /// for each pair that came or left since the last one.
    pub fn end_tick(&mut self)
        ensures { self.new ≡ ticked self.old }
    {
        settle_changed(&mut self.sets);
        forget_passed(&mut self.sets);
    }
}
