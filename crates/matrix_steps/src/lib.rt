// The step on buffers: what a step takes away, the step on the matrix alone, and how U and V follow.
#![tactic(auto)]

ghost use Rattle.matrix_pivots.specs.NextPair.{NextAsked};
ghost use Rattle.matrix_steps.specs.Next.{IsNextStep};
ghost use Rattle.matrix_steps.specs.Asked.{LowerAsked, FollowAsked};
ghost use Rattle.matrix_steps.specs.Subtraction.{IsLowered, Followed};

use crate::multiple::Multiple;
use matrix_buffers::Shape;
use matrix_pivots::{Pair, Pivot, next_rows};
use matrix_rows::{add_column, add_row};
use poly::Modulus;

pub mod multiple;

// The two rows of a step with their pivots: row l, whose pivot is the high one, is reduced by row k.
#[derive(Clone, Copy)]
pub struct Step {
    pub pair: Pair,
    pub high: Pivot,
    pub low: Pivot,
}

// The next step, by the pivots of all rows; none where the form is reached.
pub fn next_step(pivots: &[Pivot]) -> Option<Step>
    requires { NextAsked pivots.now }
    ensures { IsNextStep pivots.now result }
{
    let pair = next_rows(pivots)?;
    Some(Step {
        pair,
        high: pivots[pair.l],
        low: pivots[pair.k],
    })
}

// What the step took away, and the pivot of row l anew.
#[derive(Clone, Copy)]
pub struct Lowered {
    pub multiple: Multiple,
    pub pivot: Pivot,
}

// The step on the matrix alone: c·x^e times row k is taken from row l. The pivots are those of these rows: from their degrees on the
// rows are zero, and only what is below is read.
pub fn lower(r: &mut [u16], shape: Shape, step: Step, md: Modulus) -> Lowered
    requires { LowerAsked md.p shape.m shape.w step.pair.l step.pair.k step.high step.low r.old }
    ensures { IsLowered md.p shape.m shape.w step.pair.l step.pair.k step.high step.low r.old r.new result }
{
    let Pair { l, k } = step.pair;
    let x = multiple::plan(r, shape, step, md);
    let from = step.low.degree.places();
    let until = step.high.degree.places();
    add_row(r, shape, l, k, from, x.negated, x.exponent, md);
    let pivot = Pivot::of_row(r, shape, l, until);
    Lowered { multiple: x, pivot }
}

// How many of the lowest places of a cell can be other than zero, in row k of U and in column l of V: only these are read.
#[derive(Clone, Copy)]
pub struct Ranges {
    pub u: usize,
    pub v: usize,
}

// "The same subtraction is made on the rows of U", and column k of V takes c·x^e times column l.
pub fn follow(
    u: &mut [u16],
    v: &mut [u16],
    shape: Shape,
    pair: Pair,
    x: Multiple,
    top: Ranges,
    md: Modulus,
)
    requires { FollowAsked md.p shape.n shape.w pair.l pair.k x.exponent x.factor.0 x.negated.0 top.u top.v u.old v.old }
    ensures { Followed md.p shape.n shape.w pair.l pair.k x.exponent x.factor.0 x.negated.0 u.old v.old u.new v.new }
{
    let Pair { l, k } = pair;
    let of_u = shape.of_u();
    add_row(u, of_u, l, k, top.u, x.negated, x.exponent, md);
    add_column(v, shape, k, l, top.v, x.factor, x.exponent, md);
}
