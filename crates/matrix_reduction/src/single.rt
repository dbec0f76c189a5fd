// The single step.
ghost use Rattle.matrix_buffers.specs.Bounds.{Checked};
ghost use Rattle.matrix_promises.specs.SteppedOnce.{SteppedOnce};

use matrix_buffers::Shape;
use matrix_pivots::pivot;
use matrix_steps::{lower, next_step};
use poly::Modulus;

// One step on the matrix in r, and 1; or 0 where the form is reached: "the count", which the promise (`SteppedOnce`) has as a number.
pub fn once(r: &mut [u16], shape: Shape, md: Modulus) -> u64
    requires { Checked md.p shape.n shape.m shape.w r.old }
    ensures { SteppedOnce md.p shape.n shape.m shape.w result r.old r.new }
{
    let pivots = pivot::all(r, shape);
    let Some(step) = next_step(&pivots[..shape.n]) else {
        return 0;
    };
    lower(r, shape, step, md);
    1
}
