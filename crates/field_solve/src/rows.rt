// Rows of numbers modulo a prime, and the steps of the elimination on them. A row under work is a list of sums
// that grow by less than 2^25 in each step, so that remainders are taken at its end alone. Nearly all of the work of
// an inversion is in `add_multiple`.
ghost use Rattle.std.specs.Prelude.{◌≡◌, ◌≢◌, ℕ, ◌+◌, ◌*◌, ◌%◌, ◌^◌, ◌<◌, ◌≤◌, ℤ, length, slice_index, IfOk, MatchOption};
ghost use Rattle.field_solve.specs.Moduli.{AreInverses};
ghost use Rattle.field_solve.specs.Elimination.{AllBelow, AreCleared, AreCombined, AreRows, Combines, IsRow, nothing};

use mix_base::Memory;
use std::alloc::Global;

// A row of 761 numbers with the combination that it comes from.
#[derive(Drop)]
pub(crate) struct Row {
    pub(crate) pivot: usize,
    pub(crate) entries: Vec<u32>,
    pub(crate) combination: Vec<u32>,
}

// Adds a multiple of a list, place by place. Asks that the list is no longer than the sums.
pub(crate) fn add_multiple(sums: &mut [u64], factor: u32, list: &[u32])
    requires short { length list.now ≤ length sums.old }
    requires room { AllBelow (2 ^ 63) sums.old }
    requires small { AllBelow 4591 list.now }
    requires small_factor { factor < 4591 }
    ensures { (place : ℕ)
        → slice_index sums.new place
        ≡ slice_index sums.old place + factor * slice_index list.now place }
{
    for i in 0..list.len() {
        sums[i] += u64::from(factor) * u64::from(list[i]);
    }
}

// Adds the multiple of a row that leaves a multiple of the prime at the row's pivot.
pub(crate) fn clear(prime: u32, row: &Row, sums: &mut [u64], combination: &mut [u64])
    requires positive { 0 < prime }
    requires small { prime ≤ 4591 }
    requires form { (place : ℕ) × IsRow place row.now }
    requires whole { length sums.old ≡ 761 }
    requires long { length row.now.combination.items ≤ length combination.old }
    requires room { AllBelow (2 ^ 63) sums.old }
    requires room_combination { AllBelow (2 ^ 63) combination.old }
    ensures cleared { slice_index sums.new row.now.pivot % prime ≡ 0 }
    ensures kept { (place : ℕ) → slice_index row.now.entries.items place ≡ 0
        → slice_index sums.new place ≡ slice_index sums.old place }
    ensures behind { (place : ℕ) → length row.now.combination.items ≤ place
        → slice_index combination.new place ≡ slice_index combination.old place }
    ensures room { (bound : ℕ) → AllBelow bound sums.old → AllBelow (bound + 2 ^ 25) sums.new }
    ensures room_combination { (bound : ℕ) → AllBelow bound combination.old
        → AllBelow (bound + 2 ^ 25) combination.new }
    ensures combined { (poly start : ℕ → ℤ)
        → Combines prime poly nothing row.now.combination.items row.now.entries.items
        → Combines prime poly start combination.old sums.old
        → Combines prime poly start combination.new sums.new }
{
    let rest = (sums[row.pivot] % u64::from(prime)) as u32;
    let factor = (prime - rest) % prime;
    add_multiple(sums, factor, &row.entries);
    add_multiple(combination, factor, &row.combination);
}

// Clears the pivots of all rows.
pub(crate) fn reduce(prime: u32, rows: &[Row], sums: &mut [u64], combination: &mut [u64])
    requires positive { 0 < prime }
    requires small { prime ≤ 4591 }
    requires rows { AreRows rows.now }
    requires few { length rows.now ≤ 761 }
    requires whole { length sums.old ≡ 761 }
    requires long { length rows.now ≤ length combination.old }
    requires room { AllBelow (2 ^ 25) sums.old }
    requires room_combination { AllBelow (2 ^ 25) combination.old }
    ensures cleared { AreCleared prime (length rows.now) rows.now sums.new }
    ensures behind { (place : ℕ) → length rows.now ≤ place
        → slice_index combination.new place ≡ slice_index combination.old place }
    ensures combined { (poly start : ℕ → ℤ)
        → AreCombined prime poly rows.now
        → Combines prime poly start combination.old sums.old
        → Combines prime poly start combination.new sums.new }
{
    for row in rows {
        clear(prime, row, sums, combination);
    }
}

// A row under work: sums, and the combination that they come from.
#[derive(Drop)]
pub(crate) struct Sums {
    pub(crate) entries: Vec<u64>,
    pub(crate) combination: Vec<u64>,
}

// The sums, with the pivots of all rows cleared.
pub(crate) fn reduced(prime: u32, rows: &[Row], sums: Sums) -> Sums
    requires positive { 0 < prime }
    requires small { prime ≤ 4591 }
    requires rows { AreRows rows.now }
    requires few { length rows.now ≤ 761 }
    requires whole { length sums.entries.items ≡ 761 }
    requires long { length rows.now ≤ length sums.combination.items }
    requires room { AllBelow (2 ^ 25) sums.entries.items }
    requires room_combination { AllBelow (2 ^ 25) sums.combination.items }
    ensures whole { length result.entries.items ≡ 761 }
    ensures same_length { length result.combination.items ≡ length sums.combination.items }
    ensures cleared { AreCleared prime (length rows.now) rows.now result.entries.items }
    ensures behind { (place : ℕ) → length rows.now ≤ place
        → slice_index result.combination.items place ≡ slice_index sums.combination.items place }
    ensures combined { (poly start : ℕ → ℤ)
        → AreCombined prime poly rows.now
        → Combines prime poly start sums.combination.items sums.entries.items
        → Combines prime poly start result.combination.items result.entries.items }
{
    let Sums {
        mut entries,
        mut combination,
    } = sums;
    reduce(prime, rows, &mut entries, &mut combination);
    Sums {
        entries,
        combination,
    }
}

// The place of the first of these columns at which the sums aren't a multiple of the prime.
pub(crate) fn first_nonzero(prime: u32, columns: &[usize], sums: &[u64]) -> Option<usize>
    requires positive { 0 < prime }
    requires whole { length sums.now ≡ 761 }
    requires within { AllBelow 761 columns.now }
    ensures { MatchOption result
        ((place : ℕ) → place < length columns.now
        → slice_index sums.now (slice_index columns.now place) % prime ≡ 0)
        (λ found. (found < length columns.now)
        × (slice_index sums.now (slice_index columns.now found) % prime ≢ 0)) }
{
    for i in 0..columns.len() {
        if sums[columns[i]] % u64::from(prime) != 0 {
            return Some(i);
        }
    }
    None
}

// A multiple of a list, as numbers below the prime.
pub(crate) fn scaled(
    alloc: Global,
    prime: u32,
    factor: u32,
    sums: &[u64],
) -> Result<Vec<u32>, Memory>
    requires positive { 0 < prime }
    requires small { prime ≤ 4591 }
    requires small_factor { factor < prime }
    ensures whole { IfOk result (λ numbers. length numbers.items ≡ length sums.now) }
    ensures values { IfOk result (λ numbers. (place : ℕ)
        → slice_index numbers.items place ≡ factor * (slice_index sums.now place % prime) % prime) }
{
    let mut numbers = Vec::new(alloc);
    for sum in sums {
        numbers.push(factor * (*sum % u64::from(prime)) as u32 % prime)?;
    }
    Ok(numbers)
}

// The row that a reduced list of sums gives: the multiple that has 1 at the pivot.
pub(crate) fn normalised(
    alloc: Global,
    prime: u32,
    inverses: &[u32],
    pivot: usize,
    sums: &[u64],
    combination: &[u64],
) -> Result<Row, Memory>
    requires positive { 0 < prime }
    requires small { prime ≤ 4591 }
    requires table { AreInverses prime inverses.now }
    requires long { length inverses.now ≡ prime }
    requires whole { length sums.now ≡ 761 }
    requires within { pivot < 761 }
    requires nonzero { slice_index sums.now pivot % prime ≢ 0 }
    ensures pivot { IfOk result (λ row. row.pivot ≡ pivot) }
    ensures form { IfOk result
        (λ row. (place : ℕ) → length combination.now ≤ place + 1 → IsRow place row) }
    ensures zero { IfOk result (λ row. (column : ℕ) → slice_index sums.now column % prime ≡ 0
        → slice_index row.entries.items column ≡ 0) }
    ensures combined { IfOk result (λ row. (poly : ℕ → ℤ)
        → Combines prime poly nothing combination.now sums.now
        → Combines prime poly nothing row.combination.items row.entries.items) }
{
    let factor = inverses[(sums[pivot] % u64::from(prime)) as usize];
    let entries = scaled(alloc, prime, factor, sums)?;
    let combination = scaled(alloc, prime, factor, combination)?;
    Ok(Row {
        pivot,
        entries,
        combination,
    })
}
