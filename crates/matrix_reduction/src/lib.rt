// The reduction on buffers, with its transforms and without them, and the single step.
#![tactic(auto)]

ghost use Rattle.matrix_promises.specs.Reduced.{IsReduction};
ghost use Rattle.matrix_reduction.specs.Asked.{StartAsked};

use matrix_buffers::Shape;
use matrix_pivots::pivot;
use matrix_steps::next_step;
use poly::Modulus;

mod advance;
pub mod nonzero_rows;
mod single;
mod without_transforms;

pub use single::once;
pub use without_transforms::run_alone;

// How many rows are not zero, and how many steps led there.
#[derive(Clone, Copy, Debug, PartialEq, Eq)]
pub struct Reached {
    pub rank: usize,
    pub count: u64,
}

// The whole reduction of the matrix in r: "this step repeated until none applies". The pivots of all rows are kept; a step finds that of
// its row l anew. `spent` is what the pivot degrees have lost together since the start: no cell of row k of U has a degree above that of
// row k and `spent`, less the least pivot degree of the input. R, U and V are three lent slices here and wherever they go together: a
// struct of them would ask one more clause for each in every contract, that its field still lends what it lent.
pub fn run(r: &mut [u16], u: &mut [u16], v: &mut [u16], shape: Shape, md: Modulus) -> Reached
    requires { StartAsked md.p shape.n shape.m shape.w r.old u.old v.old }
    ensures { IsReduction md.p shape.n shape.m shape.w r.old r.new u.new v.new result.rank result.count }
{
    let n = shape.n;
    let mut pivots = pivot::all(r, shape);
    let least = pivot::least(&pivots[..n], shape.w);
    let mut count: u64 = 0;
    let mut spent: usize = 0;
    while let Some(step) = next_step(&pivots[..n]) {
        let reach = step.low.degree.places() + spent - least;
        let new = advance::advance(r, u, v, shape, step, reach, md);
        spent += step.high.degree.or_zero() - new.degree.or_zero();
        pivots[step.pair.l] = new;
        count += 1;
    }
    let rank = pivot::rank(&pivots[..n]);
    Reached { rank, count }
}
