// R alone, for those who need neither transform.
ghost use Rattle.matrix_buffers.specs.Bounds.{Checked};
ghost use Rattle.matrix_promises.specs.Reduced.{IsReducedAlone};

use crate::Reached;
use matrix_buffers::Shape;
use matrix_pivots::pivot;
use matrix_steps::{lower, next_step};
use poly::Modulus;

// The whole reduction of the matrix in r, by the same steps as with U and V. A loop for both would take what follows a step as a trait
// with its laws, to spare the four lines of this one.
pub fn run_alone(r: &mut [u16], shape: Shape, md: Modulus) -> Reached
    requires { Checked md.p shape.n shape.m shape.w r.old }
    ensures { IsReducedAlone md.p shape.n shape.m shape.w r.old r.new result.rank result.count }
{
    let n = shape.n;
    let mut pivots = pivot::all(r, shape);
    let mut count: u64 = 0;
    while let Some(step) = next_step(&pivots[..n]) {
        let new = lower(r, shape, step, md).pivot;
        pivots[step.pair.l] = new;
        count += 1;
    }
    let rank = pivot::rank(&pivots[..n]);
    Reached { rank, count }
}
