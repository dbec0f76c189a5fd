// A row is taken out.
ghost use Rattle.matrix_determinant.specs.ZeroRow.{LowestZero, TakeAsked, TakenOut};

use crate::last_column;
use crate::product::{Sign, multiply};
use crate::stage::Stage;
use matrix_pivots::Pivot;
use poly::Modulus;

// "Of several zero rows the lowest is taken": by the pivots of the rows, none where no row is zero.
fn lowest_zero(pivots: &[Pivot]) -> Option<usize>
    ensures { LowestZero pivots.now result }
{
    pivots.iter().position(|pivot| pivot.index.is_zero_row())
}

// The lowest row that the steps have left zero is taken out: its entry in the parted column, with the sign of Figure 4, is a factor, and
// the last column of the other rows is parted.
pub(crate) fn take_out(
    r: &[u16],
    column: &mut [u16],
    next: &mut [u16],
    product: &mut [u16],
    pivots: &[Pivot],
    stage: Stage,
    md: Modulus,
)
    requires { TakeAsked md.p stage.m stage.w stage.wide pivots.now r.now column.old next.old product.old }
    ensures { TakenOut md.p stage.m stage.w stage.wide pivots.now r.now column.old product.old next.new column.new product.new }
{
    let k = lowest_zero(pivots).unwrap();
    let at = k * stage.wide;
    let entry = &column[at..at + stage.wide];
    multiply(product, entry, Sign::of(k + stage.m), md);
    let left = stage.smaller();
    let cells = left.cells();
    last_column::part(r, &mut column[..cells], next, k, left);
}
