// The determinant of a square matrix.
ghost use Rattle.matrix.specs.Call.{short_call};
ghost use Rattle.matrix.specs.Determinant.{DeterminantAnswered};

use matrix_refusals::{Numbers, Refusal, checks};
use poly::Modulus;

// The determinant in the n·d + 1 places of r, or a refusal that leaves them as they were.
pub fn determinant(numbers: Numbers, a: &[u16], r: &mut [u16]) -> Result<(), Refusal>
    ensures { DeterminantAnswered (short_call numbers a.now r.old) r.new result }
{
    checks::check_determinant(numbers, a, r.len())?;
    matrix_determinant::determinant(a, r, numbers.n, numbers.d, Modulus::of(numbers.p));
    Ok(())
}
