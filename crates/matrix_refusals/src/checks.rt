// Which calls are refused, and why: the checks in the paper's order. Nothing is written here, so that every buffer of a
// refused call holds what it held.
ghost use Rattle.std.specs.Prelude.{◌≡◌, ◌↔◌, ◌+◌, ◌*◌, ◌≤◌, ◌<◌, [], ◌∷◌, length, MatchOption, IsTrue};
ghost use Rattle.matrix_refusals.specs.Number.{Verdict};
ghost use Rattle.matrix_promises.specs.Refused.{FirstHigh, reduction_sizes, step_sizes};
ghost use Rattle.matrix_promises.specs.Refused.{number_rules, length_rule, coefficient_rule, matrix_table, determinant_table};

use crate::{Numbers, Refusal};
use poly::Modulus;

// The index of the first coefficient that is p or more.
fn first_high(a: &[u16], p: u32) -> Option<usize>
    ensures { MatchOption result (FirstHigh p a.now (length a.now)) (λ i. (i < length a.now) × FirstHigh p a.now i) }
{
    // Most calls have none, and the greatest of all is found by vectors, without an exit on the way.
    let greatest: u16 = a.iter().fold(0, |greatest, x| greatest.max(*x));
    if u32::from(greatest) < p {
        return None;
    }
    a.iter().position(|x| p <= u32::from(*x))
}

// Refusals 1 to 3.
pub fn check_numbers(numbers: Numbers) -> Result<(), Refusal>
    ensures { Verdict (number_rules numbers.p numbers.n numbers.m numbers.d []) result }
{
    let Numbers { p, n, m, d } = numbers;
    if !Modulus::accepts(p) {
        return Err(Refusal::Modulus);
    }
    if !one_to_eight(n) || !one_to_eight(m) {
        return Err(Refusal::Shape);
    }
    if 63 < d {
        return Err(Refusal::Degree);
    }
    Ok(())
}

// Whether a number of rows or columns is one of 1 to 8.
fn one_to_eight(n: usize) -> bool
    ensures { IsTrue result ↔ ((1 ≤ n) × (n ≤ 8)) }
{
    (1..=8).contains(&n)
}

// Refusal 5: the first buffer whose length is not its size, counted from 1.
fn check_lengths<const N: usize>(lengths: &[usize; N], sizes: &[usize; N]) -> Result<(), Refusal>
    ensures { Verdict (length_rule lengths.now sizes.now ∷ []) result }
{
    match lengths
        .iter()
        .zip(sizes.iter())
        .position(|(length, size)| length != size)
    {
        Some(i) => Err(Refusal::Length(i + 1)),
        None => Ok(()),
    }
}

// Refusal 6.
pub fn check_coefficients(a: &[u16], p: u32) -> Result<(), Refusal>
    ensures { Verdict (coefficient_rule p a.now ∷ []) result }
{
    match first_high(a, p) {
        Some(i) => Err(Refusal::Coefficient(i)),
        None => Ok(()),
    }
}

// The checks of the single step, whose result has r places.
pub fn check_step(numbers: Numbers, a: &[u16], r: usize) -> Result<(), Refusal>
    ensures { Verdict (matrix_table numbers.p numbers.n numbers.m numbers.d (length a.now ∷ r ∷ []) (step_sizes numbers.n numbers.m numbers.d) a.now) result }
{
    check_numbers(numbers)?;
    let Numbers { p, n, m, d } = numbers;
    let places = n * (m * (d + 1));
    check_lengths(&[a.len(), r], &[places, places])?;
    check_coefficients(a, p)
}

// The checks of the reduction, whose result, U and V have r, u and v places.
pub fn check_reduction(
    numbers: Numbers,
    a: &[u16],
    r: usize,
    u: usize,
    v: usize,
) -> Result<(), Refusal>
    ensures { Verdict (matrix_table numbers.p numbers.n numbers.m numbers.d (length a.now ∷ r ∷ u ∷ v ∷ []) (reduction_sizes numbers.n numbers.m numbers.d) a.now) result }
{
    check_numbers(numbers)?;
    let Numbers { p, n, m, d } = numbers;
    let places = n * (m * (d + 1));
    let cell = n * (d + 1);
    check_lengths(
        &[a.len(), r, u, v],
        &[places, places, n * (n * cell), n * cell],
    )?;
    check_coefficients(a, p)
}

// The checks of the determinant, whose result has r places.
pub fn check_determinant(numbers: Numbers, a: &[u16], r: usize) -> Result<(), Refusal>
    ensures { Verdict (determinant_table numbers.p numbers.n numbers.m numbers.d (length a.now ∷ r ∷ []) a.now) result }
{
    check_numbers(numbers)?;
    let Numbers { p, n, m, d } = numbers;
    if n != m {
        return Err(Refusal::Square);
    }
    check_lengths(&[a.len(), r], &[n * (m * (d + 1)), n * d + 1])?;
    check_coefficients(a, p)
}
