// Inversion by elimination. The rows are the products of the polynomial with 1, x, x^2 and so on, each reduced by
// the rows before it. A row that vanishes shows a divisor of zero. Otherwise each row takes a column as its pivot,
// and once every column is one, the polynomial -1 reduced by all rows vanishes: its combination is the inverse. That
// the product is 1, or 0, is proved of what the elimination finds, so it isn't multiplied out when the program runs.
ghost use Rattle.std.specs.Prelude.{◌≡◌, ℕ, ◌+◌, ◌/◌, ◌<◌, ◌≤◌, ℤ, length, slice_index, IfOk, IfNone, IfSome};
ghost use Rattle.ntru_ring.specs.Polynomials.{IsPolynomial};
ghost use Rattle.field_solve.specs.Answers.{HasNoDivisor, HasNoInverse, IfDivisor, IfInverse, IsDivisor, IsInverse, IsOnlyInverse};
ghost use Rattle.field_solve.specs.Elimination.{AreCombined, AreRows, Divides, Inverts, IsPivot, Progress};
ghost use Rattle.field_solve.specs.Moduli.{AreInverses, prime_of};

use crate::fields::{Modulus, inverses, polynomial, prime_of};
use crate::powers::{minus_one, power_of_x, product, zeros};
use crate::rows::{Row, Sums, first_nonzero, normalised, reduced};
use mix_base::Memory;
use std::alloc::Global;

/// What an inversion finds.
#[derive(Debug, Drop)]
pub enum Solved {
    /// The polynomial whose product with the given one is 1: 761 centred coefficients.
    Inverse(Vec<i16>),
    /// A polynomial other than 0 whose product with the given one is 0: 761 centred coefficients.
    Divisor(Vec<i16>),
}

// Adds the row of the next power of x, and takes its pivot out of the free columns; or finds a combination whose
// product with the polynomial is 0.
fn add_row(
    alloc: Global,
    prime: u32,
    inverses: &[u32],
    poly: &[i16],
    columns: &mut Vec<usize>,
    rows: &mut Vec<Row>,
) -> Result<Option<Vec<u64>>, Memory>
    requires positive { 0 < prime }
    requires small { prime ≤ 4591 }
    requires table { AreInverses prime inverses.now }
    requires long { length inverses.now ≡ prime }
    requires polynomial { IsPolynomial (prime / 2) poly.now }
    requires progress { Progress prime poly.now columns.old.items rows.old.items }
    requires unfinished { length rows.old.items < 761 }
    ensures progress { IfOk result
        (λ found. IfNone found (Progress prime poly.now columns.new.items rows.new.items)) }
    ensures one_more { IfOk result
        (λ found. IfNone found (length rows.new.items ≡ length rows.old.items + 1)) }
    ensures divisor { IfOk result (λ found. IfSome found (λ v. Divides prime poly.now v.items)) }
    ensures short { IfOk result (λ found. IfSome found (λ v. length v.items ≤ 761)) }
{
    let power = rows.len();
    let entries = product(alloc, prime, poly, power)?;
    let combination = power_of_x(alloc, power)?;
    let Sums {
        entries,
        combination,
    } = reduced(
        prime,
        rows,
        Sums {
            entries,
            combination,
        },
    );
    match first_nonzero(prime, columns, &entries) {
        None => Ok(Some(combination)),
        Some(place) => {
            let row = normalised(
                alloc,
                prime,
                inverses,
                columns[place],
                &entries,
                &combination,
            )?;
            rows.push(row)?;
            let _pivot = columns.remove(place);
            Ok(None)
        }
    }
}

// The combination that takes -1 to 0, once every column is a pivot.
fn inverse_by(alloc: Global, prime: u32, rows: &[Row]) -> Result<Vec<u64>, Memory>
    requires positive { 0 < prime }
    requires small { prime ≤ 4591 }
    requires rows { AreRows rows.now }
    requires all { length rows.now ≡ 761 }
    requires pivots { (column : ℕ) → column < 761 → IsPivot rows.now column }
    ensures short { IfOk result (λ u. length u.items ≡ 761) }
    ensures inverse { IfOk result
        (λ u. (poly : ℕ → ℤ) → AreCombined prime poly rows.now → Inverts prime poly u.items) }
{
    let entries = minus_one(alloc, prime)?;
    let combination = zeros(alloc, 761)?;
    let Sums {
        entries: _,
        combination,
    } = reduced(
        prime,
        rows,
        Sums {
            entries,
            combination,
        },
    );
    Ok(combination)
}

// The columns of a row.
fn all_columns(alloc: Global) -> Result<Vec<usize>, Memory>
    ensures whole { IfOk result (λ columns. length columns.items ≡ 761) }
    ensures each { IfOk result
        (λ columns. (column : ℕ) → column < 761 → slice_index columns.items column ≡ column) }
{
    let mut columns = Vec::new(alloc);
    for column in 0..761 {
        columns.push(column)?;
    }
    Ok(columns)
}

/// The inverse of a polynomial in the ring, or a polynomial other than 0 whose product with it is 0. There is never
/// both, and there is at most one inverse. Asks 761 coefficients, from -1 to 1 modulo 3 and from -2295 to 2295 modulo
/// 4591.
pub fn invert(alloc: Global, modulus: Modulus, poly: &[i16]) -> Result<Solved, Memory>
    requires { IsPolynomial (prime_of modulus / 2) poly.now }

    ensures inverse { IfOk result
        (λ solved. IfInverse solved (IsInverse (prime_of modulus) poly.now)) }
    ensures only_inverse { IfOk result
        (λ solved. IfInverse solved (IsOnlyInverse (prime_of modulus) poly.now)) }
    ensures no_divisor { IfOk result
        (λ solved. IfInverse solved (λ _. HasNoDivisor (prime_of modulus) poly.now)) }

    ensures divisor { IfOk result
        (λ solved. IfDivisor solved (IsDivisor (prime_of modulus) poly.now)) }
    ensures no_inverse { IfOk result
        (λ solved. IfDivisor solved (λ _. HasNoInverse (prime_of modulus) poly.now)) }
{
    let prime = prime_of(modulus);
    let inverses = inverses(alloc, modulus)?;
    let mut columns = all_columns(alloc)?;
    let mut rows = Vec::new(alloc);
    for _ in 0..761usize {
        match add_row(alloc, prime, &inverses, poly, &mut columns, &mut rows)? {
            None => {}
            Some(combination) => {
                return Ok(Solved::Divisor(polynomial(alloc, prime, &combination)?));
            }
        }
    }
    let combination = inverse_by(alloc, prime, &rows)?;
    Ok(Solved::Inverse(polynomial(alloc, prime, &combination)?))
}
