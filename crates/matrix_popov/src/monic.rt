// The last move to the Popov form: monic pivots.
ghost use Rattle.std.specs.Prelude.{◌≡◌, length};
ghost use Rattle.matrix_popov.specs.monic.Monic.{RowToDivide, RowDivided, MonicAsked, MadeMonic};

use matrix_buffers::Shape;
use matrix_pivots::Pivot;
use matrix_rows::{scale_column, scale_row};
use matrix_steps::multiple;
use poly::Modulus;

// "Divide each non-zero row by its pivot's leading coefficient; zero rows stay", for they have none. What row i of R loses,
// column i of V takes, so that V·R = A still holds.
fn divide_row(
    r: &mut [u16],
    u: &mut [u16],
    v: &mut [u16],
    shape: Shape,
    i: usize,
    pivot: Pivot,
    md: Modulus,
)
    requires { RowToDivide md.p shape.n shape.m shape.w i pivot r.old u.old v.old }
    ensures { RowDivided md.p shape.n shape.m shape.w i pivot r.old u.old v.old r.new u.new v.new }
{
    if pivot.index.is_zero_row() {
        return;
    }
    let c = multiple::coefficient(r, shape, i, pivot);
    let f = c.inverse(md);
    scale_row(r, shape, i, f, md);
    scale_row(u, shape.of_u(), i, f, md);
    scale_column(v, shape, i, c, md);
}

// Monic pivots in all rows that have one. Each keeps its place.
pub(crate) fn make_monic(
    r: &mut [u16],
    u: &mut [u16],
    v: &mut [u16],
    shape: Shape,
    pivots: &[Pivot],
    md: Modulus,
)
    requires asked { MonicAsked md.p shape.n shape.m shape.w r.old u.old v.old pivots.now }
    requires pivots_size { length pivots.now ≡ shape.n }
    ensures { MadeMonic md.p shape.n shape.m shape.w r.old u.old v.old r.new u.new v.new }
{
    for (i, pivot) in pivots.iter().enumerate() {
        divide_row(r, u, v, shape, i, *pivot, md);
    }
}
