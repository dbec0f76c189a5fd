// The rows of a matrix that are not zero.
ghost use Rattle.std.specs.Prelude.{◌≡◌};
ghost use Rattle.matrix_promises.specs.RowList.{mask_of};
ghost use Rattle.matrix_pivots.specs.Pivot.{values_of};
ghost use Rattle.matrix_reduction.specs.NonzeroRows.{ListAsked};

use matrix_buffers::Shape;
use poly::polynomial;

// Which rows of r are not zero: bit i stands for row i, counted from 0.
pub fn list(r: &[u16], shape: Shape) -> usize
    requires { ListAsked shape.n shape.m shape.w r.now }
    ensures { result ≡ mask_of shape.n (values_of shape.m shape.w r.now) }
{
    let mut rows = 0;
    for (i, row) in r.chunks_exact(shape.row()).enumerate() {
        if polynomial::used(row) != 0 {
            rows += 1 << i;
        }
    }
    rows
}
