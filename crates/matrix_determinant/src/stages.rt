// One stage of the determinant, and all of them, one after the other.
ghost use Rattle.matrix_determinant.specs.Stage.{StageAsked, Staged};
ghost use Rattle.matrix_determinant.specs.AllStages.{RunAsked, Ran};

use crate::first_columns::reduce_columns;
use crate::product::{Sign, multiply};
use crate::scratch::{COLUMNS, zeros};
use crate::stage::Stage;
use crate::zero_row::take_out;
use matrix_pivots::pivot;
use poly::Modulus;

// One stage: its steps, and then a row is taken out, and the columns of the next stage are put in front of r. What the pivot degrees
// of the rows are together is the budget of that one, and is returned. The buffers go one by one, as R, U and V do in `matrix_reduction::run`.
fn turn(
    r: &mut [u16],
    column: &mut [u16],
    product: &mut [u16],
    budget: usize,
    stage: Stage,
    md: Modulus,
) -> usize
    requires { StageAsked md.p stage.m stage.w stage.wide budget r.old column.old product.old }
    ensures { Staged md.p stage.m stage.w stage.wide budget result r.old column.old product.old r.new column.new product.new }
{
    let all = reduce_columns(r, column, budget, stage, md);
    let pivots = &all[..stage.rows()];
    let mut room: [u16; COLUMNS] = zeros();
    let end = stage.smaller().places();
    take_out(r, column, &mut room[..end], product, pivots, stage, md);
    r[..end].copy_from_slice(&room[..end]);
    pivot::degree_sum(pivots)
}

// All stages, from the first to the one of no column beside the parted one, whose only entry is the last factor. The buffers have
// room for the first one, and every later one stands in their front.
pub(crate) fn run(r: &mut [u16], column: &mut [u16], product: &mut [u16], first: Stage, md: Modulus)
    requires { RunAsked md.p first.m first.w first.wide r.old column.old product.old }
    ensures { Ran md.p first.m first.w first.wide r.old column.old product.old product.new }
{
    let mut budget = first.rows() * (first.w - 1);
    for m in (1..first.rows()).rev() {
        let stage = Stage {
            m,
            w: first.w,
            wide: first.wide,
        };
        let size = stage.places();
        let cells = stage.cells();
        budget = turn(
            &mut r[..size],
            &mut column[..cells],
            product,
            budget,
            stage,
            md,
        );
    }
    multiply(product, &column[..first.wide], Sign::Plus, md);
}
