//! What is left of rows where those that nothing holds are freed.
ghost use Rattle.std.specs.Prelude.{◌≡◌, ◌&&◌, ◌||◌, ◌==◌, ℕ, true, not, IfOk, if◌then◌else◌};
ghost use Rattle.std.specs.List.{list_all};
ghost use Rattle.lists.specs.Rising.{RisesFrom, remove as without};
ghost use Rattle.state_model.specs.declared.row.RowEntry.{RowEntry};
ghost use Rattle.state_model.specs.Rows.{is_live, number_of, rows_of as rows_of_numbers};
ghost use Rattle.state_model.specs.Reached.{all_held, freed as freed_rows, is_among};
ghost use Rattle.plain_rows.specs.Counts.{counted};

use crate::chosen::rows_of;
use crate::holder_counts::HolderCounts;
use crate::links::{add_links, add_row_links};
use crate::number_set::NumberSet;
use schema_model::{Memory, RefNum};
use state_model::Rows;
use std::alloc::Global;

// The numbers of the rows.
fn numbers_of(alloc: Global, rows: &Rows) -> Result<NumberSet, Memory>
    ensures numbers { IfOk result (λ ns. (k : ℕ) → is_among k ns ≡ is_live rows.now k) }
    ensures rises { RisesFrom number_of 0 rows.now }
{
    let mut numbers = NumberSet::new(alloc);
    for entry in rows.as_slice() {
        numbers.insert(entry.who)?;
    }
    Ok(numbers)
}

// What the rows hold, place by place.
fn all_links(alloc: Global, rows: &Rows) -> Result<Vec<RefNum>, Memory>
    ensures { IfOk result (λ links. links.items ≡ all_held rows.now) }
{
    let mut links = Vec::new(alloc);
    for entry in rows.as_slice() {
        add_row_links(&entry.row, &mut links)?;
    }
    Ok(links)
}

// Takes a number other than 0 that nothing holds out of those left, and answers whether it was
// there.
fn take_unheld(number: RefNum, counts: &HolderCounts, left: &mut NumberSet) -> bool
    ensures taken { result ≡ (not (number == 0) && (counted counts.now number == 0) && is_among number left.old) }
    ensures rest { left.new ≡ (if result then without (λ n. n) number left.old else left.old) }
{
    if number.0 == 0 || counts.is_held(number) || !left.has(number) {
        return false;
    }
    left.remove(number)
}

// The numbers of the rows that are left. A row is looked at again only when a place that held it
// goes away.
fn numbers_left(alloc: Global, rows: &Rows) -> Result<NumberSet, Memory>
    ensures { IfOk result (λ ns. rows_of_numbers ns rows.now ≡ freed_rows rows.now) }
{
    let mut left = numbers_of(alloc, rows)?;
    let mut waiting = left.to_vec(alloc)?;
    let links = all_links(alloc, rows)?;
    let mut counts = HolderCounts::of(alloc, &links)?;
    while let Some(number) = waiting.pop() {
        if take_unheld(number, &counts, &mut left) {
            let mut held = Vec::new(alloc);
            add_links(rows, number, &mut held)?;
            counts.lower(&held);
            waiting.extend_from_slice(&held)?;
        }
    }
    Ok(left)
}

// Each row but 0 is held: then none is freed. Where it answers false this isn't known.
fn stay(alloc: Global, rows: &Rows) -> Result<bool, Memory>
    ensures { IfOk result (λ stay. stay ≡ true → freed_rows rows.now ≡ rows.now) }
{
    let mut held = all_links(alloc, rows)?;
    held.sort_unstable();
    Ok(are_held(rows, held.as_slice()))
}

// Each row but 0 is found among these numbers.
fn are_held(rows: &Rows, held: &[RefNum]) -> bool
    ensures { result ≡ true → list_all (λ (e : RowEntry). (e.who == 0) || is_among e.who held.now) rows.now ≡ true }
{
    for entry in rows.as_slice() {
        if !is_held(entry.who, held) {
            return false;
        }
    }
    true
}

// The number is 0, or it is found among these.
fn is_held(who: RefNum, held: &[RefNum]) -> bool
    ensures { result ≡ true → (who == 0 || is_among who held.now) ≡ true }
{
    if who.0 == 0 {
        return true;
    }
    match held.binary_search(&who) {
        Ok(_) => true,
        Err(_) => false,
    }
}

/// The rows without those other than 0 that no row holds, as often as needed. Each place is looked
/// at a few times, and a number is found in steps as the logarithm of how many there are.
pub fn freed(alloc: Global, rows: &Rows) -> Result<Rows, Memory>
    ensures { IfOk result (λ left. left ≡ freed_rows rows.now) }
{
    let numbers = numbers_left(alloc, rows)?;
    rows_of(alloc, &numbers, rows)
}

/// The same of rows that are handed over. Where each of them is held they are handed back as they are.
pub fn freed_of(alloc: Global, rows: Rows) -> Result<Rows, Memory>
    ensures { IfOk result (λ left. left ≡ freed_rows rows) }
{
    if stay(alloc, &rows)? {
        return Ok(rows);
    }
    freed(alloc, &rows)
}
