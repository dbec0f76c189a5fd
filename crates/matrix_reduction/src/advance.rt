// The step of the reduction: R, U and V, and the pivot of the row that changed.
ghost use Rattle.matrix_reduction.specs.Advanced.{AdvanceAsked, Advanced};

use matrix_buffers::Shape;
use matrix_pivots::Pivot;
use matrix_steps::{Ranges, Step, follow, lower};
use poly::Modulus;

// One step on rows l and k, by their pivots; the pivot of row l anew is returned. The degrees tell which places of U and V can be other
// than zero: the cells of row k of U have no more than `reach` of them, and those of column l of V end with d less the degree of row l.
pub(crate) fn advance(
    r: &mut [u16],
    u: &mut [u16],
    v: &mut [u16],
    shape: Shape,
    step: Step,
    reach: usize,
    md: Modulus,
) -> Pivot
    requires { AdvanceAsked md.p shape.n shape.m shape.w step.pair.l step.pair.k step.high step.low reach r.old u.old v.old }
    ensures { Advanced md.p shape.n shape.m shape.w step.pair.l step.pair.k step.high step.low r.old u.old v.old r.new u.new v.new result }
{
    let x = lower(r, shape, step, md);
    let top = Ranges {
        u: reach,
        v: shape.w + 1 - step.high.degree.places(),
    };
    follow(u, v, shape, step.pair, x.multiple, top, md);
    x.pivot
}
