// The steps of one stage of the determinant, on its first columns. The column that is parted from them follows.
ghost use Rattle.matrix_determinant.specs.FirstColumns.{ReduceAsked, ColumnsReduced};

use crate::stage::Stage;
use matrix_buffers::Shape;
use matrix_pivots::{Pair, Pivot, pivot};
use matrix_rows::add_row;
use matrix_steps::{lower, next_step};
use poly::Modulus;

// Steps until none applies to the first m columns of m + 1 rows, whose pivots then are returned. The parted column follows: what the
// pivot degrees have lost of the budget tells how far its cells reach.
pub(crate) fn reduce_columns(
    r: &mut [u16],
    column: &mut [u16],
    budget: usize,
    stage: Stage,
    md: Modulus,
) -> [Pivot; 8]
    requires { ReduceAsked md.p stage.m stage.w stage.wide budget r.old column.old }
    ensures { ColumnsReduced md.p stage.m stage.w stage.wide budget r.old column.old r.new column.new result }
{
    let n = stage.rows();
    let shape = Shape {
        n,
        m: stage.m,
        w: stage.w,
    };
    let parted = Shape {
        n,
        m: 1,
        w: stage.wide,
    };
    let mut pivots = pivot::all(r, shape);
    while let Some(step) = next_step(&pivots[..n]) {
        let Pair { l, k } = step.pair;
        let top = step.low.degree.places() + (budget - pivot::degree_sum(&pivots[..n]));
        let x = lower(r, shape, step, md);
        let taken = x.multiple;
        add_row(column, parted, l, k, top, taken.negated, taken.exponent, md);
        pivots[l] = x.pivot;
    }
    pivots
}
