//! Pairs that come and leave, and what a tick's end makes of them.
ghost use Rattle.std.specs.Prelude.{◌≡◌, ◌+◌, ◌<◌, ◌≤◌, ◌^◌, [], length, nat_le, nat_lt};
ghost use Rattle.view_members.specs.declared.fault.MemberFault.TheVariants.{ViewFull};
ghost use Rattle.view_members.specs.Sets.{without_row};
ghost use Rattle.view_members.specs.Standings.{is_now, is_changed, is_passed, is_ranked, is_spare, is_missing, ranks_of, members_of, add_at, remove_at, add_all, missing, with_spares, without_spare, without_spares, AllFit, HasNoRoom, IsKept, MakesRoom, TakesRoom, settled_at};

use crate::fault::MemberFault;
use crate::rank::{TAGS, rank_of};
use crate::sets::Sets;
use crate::standing::Standing;
use schema_model::{Pair, RefNum};

/// How many pairs may be kept.
const LIMIT: usize = 65536;

// The pair of this rank comes, if it has an entry.
fn add(sets: &mut Sets, rank: u64)
    ensures { sets.new ≡ add_at rank sets.old }
{
    if let Some(standing) = sets.get(rank) {
        sets.set(rank, standing.coming());
    }
}

/// Those of these pairs come that have an entry.
pub fn add_each(sets: &mut Sets, pairs: &[Pair])
    ensures { sets.new ≡ add_all pairs.now sets.old }
{
    for pair in pairs {
        add(sets, rank_of(*pair));
    }
}

/// The pair of this rank leaves, if it has an entry.
pub fn remove(sets: &mut Sets, rank: u64)
    ensures entries { sets.new ≡ remove_at rank sets.old }
    ensures kept { IsKept sets.old }
{
    if let Some(standing) = sets.get(rank) {
        sets.set(rank, standing.leaving());
    }
}

/// Every pair of a row leaves.
pub fn remove_row(sets: &mut Sets, who: RefNum)
    ensures members { members_of sets.new ≡ without_row who (members_of sets.old) }
    ensures spare { ranks_of is_spare sets.new ≡ ranks_of is_spare sets.old }
    ensures len { length sets.new ≡ length sets.old }
{
    let mut from = TAGS * u64::from(who.0);
    let end = from + TAGS;
    while let Some(rank) = sets.first_from(from) {
        if rank >= end {
            return;
        }
        remove(sets, rank);
        from = rank + 1;
    }
}

// Room for the pair of a rank, where it has no entry.
fn make_room(sets: &mut Sets, rank: u64) -> Result<(), MemberFault>
    requires below { rank < 2 ^ 48 }
    requires few { length sets.old ≤ 65536 }
    ensures value { MakesRoom rank sets.old sets.new result }
    ensures kept { IsKept sets.old }
{
    if sets.get(rank).is_some() {
        return Ok(());
    }
    if sets.len() >= LIMIT {
        return Err(MemberFault::ViewFull);
    }
    sets.add_spare(rank)?;
    Ok(())
}

// The room of a pair is given back, where no pair came into it.
fn drop_spare(sets: &mut Sets, rank: u64)
    ensures { sets.new ≡ without_spare rank sets.old }
{
    let Some(standing) = sets.get(rank) else {
        return;
    };
    if standing.spare() {
        sets.take_out(rank);
    }
}

// The room of these pairs is given back.
fn drop_spares(sets: &mut Sets, pairs: &[Pair])
    ensures entries { sets.new ≡ without_spares pairs.now sets.old }
    ensures fit { AllFit pairs.now }
{
    for pair in pairs {
        drop_spare(sets, rank_of(*pair));
    }
}

// Whether the pair of a rank is among these.
fn is_ranked(pairs: &[Pair], rank: u64) -> bool
    ensures { result ≡ is_ranked pairs.now rank }
{
    pairs.iter().any(|pair| rank_of(*pair) == rank)
}

// Whether room for the pair of a rank is an entry more, where room for these pairs is taken after it.
fn is_missing(sets: &Sets, rank: u64, later: &[Pair]) -> bool
    ensures { result ≡ is_missing rank later.now sets.now }
{
    match sets.get(rank) {
        Some(_) => false,
        None => !is_ranked(later, rank),
    }
}

// How many entries more there are with room for these pairs. Each is looked for among all after it, which takes the
// square of their number: this is asked only where memory ran out.
fn missing(sets: &Sets, pairs: &[Pair]) -> usize
    ensures { result ≡ missing pairs.now sets.now }
{
    let mut count = 0;
    let mut left = pairs;
    while let [pair, later @ ..] = left {
        if is_missing(sets, rank_of(*pair), later) {
            count += 1;
        }
        left = later;
    }
    count
}

// Whether these pairs would be too many. It takes no memory.
fn are_too_many(sets: &Sets, pairs: &[Pair]) -> bool
    requires { length sets.now ≤ 65536 }
    ensures { result ≡ nat_lt 65536 (length (with_spares pairs.now sets.now)) }
{
    sets.keeps();
    missing(sets, pairs) > LIMIT - sets.len()
}

// Why there is no room for these pairs, where one of them got none for this cause. Without memory for an earlier one a
// later one may still be one too many.
fn why_no_room(sets: &Sets, pairs: &[Pair], fault: MemberFault) -> MemberFault
    requires few { length sets.now ≤ 65536 }
    requires full { fault ≡ ViewFull → 65536 < length (with_spares pairs.now sets.now) }
    ensures { HasNoRoom pairs.now sets.now result }
{
    match fault {
        MemberFault::Memory if are_too_many(sets, pairs) => MemberFault::ViewFull,
        fault => fault,
    }
}

/// Whether there may be so many entries more.
pub fn has_room(sets: &Sets, more: usize) -> bool
    requires { length sets.now ≤ 65536 }
    ensures { result ≡ nat_le (length sets.now + more) 65536 }
{
    more <= LIMIT - sets.len()
}

/// Room for these pairs, as far as they have no entries. An `Err` changes nothing.
pub fn take_room(sets: &mut Sets, pairs: &[Pair]) -> Result<(), MemberFault>
    requires few { length sets.old ≤ 65536 }
    requires spare { ranks_of is_spare sets.old ≡ [] }
    ensures value { TakesRoom pairs.now sets.old sets.new result }
    ensures fit { AllFit pairs.now }
    ensures kept { IsKept sets.old }
{
    sets.keeps();
    for pair in pairs {
        if let Err(fault) = make_room(sets, rank_of(*pair)) {
            drop_spares(sets, pairs);
            return Err(why_no_room(sets, pairs, fault));
        }
    }
    Ok(())
}

// The pair of a rank that changed is no longer told as changed.
fn settle(sets: &mut Sets, rank: u64)
    ensures { sets.new ≡ settled_at rank sets.old }
{
    if let Some(Standing::Came) = sets.get(rank) {
        sets.set(rank, Standing::Stays);
    } else {
        sets.take_out(rank);
    }
}

/// No pair is told as changed any more; the members stay.
pub fn settle_changed(sets: &mut Sets)
    ensures now { ranks_of is_now sets.new ≡ ranks_of is_now sets.old }
    ensures changed { ranks_of is_changed sets.new ≡ [] }
    ensures spare { ranks_of is_spare sets.new ≡ ranks_of is_spare sets.old }
    ensures len { length sets.new ≤ length sets.old }
{
    while let Some(rank) = sets.last_changed() {
        settle(sets, rank);
    }
}

/// No pair is told as passed any more; nothing else changes.
pub fn forget_passed(sets: &mut Sets)
    ensures now { ranks_of is_now sets.new ≡ ranks_of is_now sets.old }
    ensures changed { ranks_of is_changed sets.new ≡ ranks_of is_changed sets.old }
    ensures passed { ranks_of is_passed sets.new ≡ [] }
    ensures spare { ranks_of is_spare sets.new ≡ ranks_of is_spare sets.old }
    ensures len { length sets.new ≤ length sets.old }
    ensures kept { IsKept sets.new }
{
    while let Some(rank) = sets.last_passed() {
        sets.take_out(rank);
    }
}
