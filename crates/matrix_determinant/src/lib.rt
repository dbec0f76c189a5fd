// The determinant by stages, on buffers. In the stage of m columns, m + 1 rows are reduced in these, and one more column, which
// is parted from them, follows. Then a row is zero but for its entry in that column, which is a factor of the determinant: the lowest
// such row is taken out, and the last of the m columns is parted from the others.
#![tactic(auto)]

ghost use Rattle.matrix_determinant.specs.Determinant.{DeterminantAsked};
ghost use Rattle.matrix_promises.specs.Determinant.{IsDeterminant};

use crate::scratch::{CELLS, COLUMNS, zeros};
use crate::stage::Stage;
use poly::Modulus;

mod first_columns;
mod last_column;
mod product;
mod scratch;
mod stage;
mod stages;
mod zero_row;

// The determinant of the matrix in a, with room of its own: it has no more than n·d + 1 places, and neither has what the
// stages make of the parted column.
pub fn determinant(a: &[u16], r: &mut [u16], n: usize, d: usize, md: Modulus)
    requires { DeterminantAsked md.p n d a.now r.old }
    ensures { IsDeterminant md.p n d a.now r.new }
{
    let wide = n * d + 1;
    let first = Stage {
        m: n - 1,
        w: d + 1,
        wide,
    };
    let mut columns: [u16; COLUMNS] = zeros();
    let mut column: [u16; CELLS] = zeros();
    last_column::lay(a, &mut columns, &mut column, r, first);
    stages::run(&mut columns, &mut column, r, first, md);
}
