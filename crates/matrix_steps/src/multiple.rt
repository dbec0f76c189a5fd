// The multiple of a row that is taken from another: what removes a term of it.
ghost use Rattle.std.specs.Prelude.{◌≡◌};
ghost use Rattle.matrix_steps.specs.multiple.Asked.{CoefficientAsked, DivideAsked, PlanAsked};
ghost use Rattle.matrix_steps.specs.multiple.Factor.{coefficient_at, Divided, Factor};

use crate::Step;
use matrix_buffers::Shape;
use matrix_pivots::Pivot;
use poly::{Modulus, Residue};

// The multiple c·x^e of a row that is taken from another: e is the exponent, c the factor, and -c stands beside it, so that rows
// are only ever added to.
#[derive(Clone, Copy)]
pub struct Multiple {
    pub exponent: usize,
    pub factor: Residue,
    pub negated: Residue,
}

// The coefficient of row i in the column and of the degree of a pivot.
pub fn coefficient(r: &[u16], shape: Shape, i: usize, at: Pivot) -> Residue
    requires { CoefficientAsked shape.m shape.w i at.index.0 at.degree.0 r.now }
    ensures { result.0 ≡ coefficient_at shape.m shape.w r.now i at.index.0 at.degree.0 }
{
    let s = shape.row();
    let j = at.index.column();
    let t = at.degree.degree();
    Residue::from(r[i * s + (j * shape.w + t)])
}

// The factor is a divided by b.
pub fn divide(a: Residue, b: Residue, exponent: usize, md: Modulus) -> Multiple
    requires { DivideAsked md.p a.0 b.0 }
    ensures { Divided md.p a.0 b.0 exponent result.exponent result.factor.0 result.negated.0 }
{
    let factor = a.product(b.inverse(md), md);
    let negated = Residue::ZERO.difference(factor, md);
    Multiple {
        exponent,
        factor,
        negated,
    }
}

// What a step takes away.
pub fn plan(r: &[u16], shape: Shape, step: Step, md: Modulus) -> Multiple
    requires { PlanAsked md.p shape.m shape.w step.pair.l step.pair.k step.high step.low r.now }
    ensures { Factor md.p shape.m shape.w step.pair.l step.pair.k step.high step.low r.now result.exponent result.factor.0 result.negated.0 }
{
    let a = coefficient(r, shape, step.pair.l, step.high);
    let b = coefficient(r, shape, step.pair.k, step.low);
    divide(a, b, step.high.degree.over(step.low.degree), md)
}
