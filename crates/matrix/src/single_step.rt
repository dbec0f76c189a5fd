// The single step: input and result only.
ghost use Rattle.matrix.specs.Call.{short_call};
ghost use Rattle.matrix.specs.SingleStep.{StepAnswered};

use matrix_refusals::{Numbers, Refusal, checks};
use poly::{Modulus, arithmetic};

// "The matrix after one step and the count 1, or an equal copy and the count 0 where the form is reached."
pub fn step(numbers: Numbers, a: &[u16], r: &mut [u16]) -> Result<u64, Refusal>
    ensures { StepAnswered (short_call numbers a.now r.old) r.new result }
{
    checks::check_step(numbers, a, r.len())?;
    arithmetic::copy(a, r);
    Ok(matrix_reduction::once(r, numbers.shape(), Modulus::of(numbers.p)))
}
