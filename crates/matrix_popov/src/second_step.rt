// The steps of the second kind on the buffers: "go through the non-zero rows from the top."
ghost use Rattle.std.specs.Prelude.{◌≡◌, ◌+◌, ◌-◌, ◌<◌, length, SomeIff};
ghost use Rattle.matrix_steps.specs.multiple.Asked.{CoefficientAsked};
ghost use Rattle.matrix_popov.specs.second_step.Excess.{excess_of, excess_at, HighestAsked, IsHighest};
ghost use Rattle.matrix_popov.specs.second_step.Removing.{TermAsked, Removes, RemoveAsked, SecondMove, RemovingAsked, ClearAsked, Cleared};

use matrix_buffers::Shape;
use matrix_pivots::{Pair, Pivot};
use matrix_rows::add_row;
use matrix_steps::multiple::Multiple;
use matrix_steps::{Ranges, Step, follow, multiple};
use poly::{Modulus, polynomial};

// What is subtracted next: a multiple of this row by x^e, where e is the excess over it.
#[derive(Clone, Copy)]
struct Found {
    at: usize,
    exponent: usize,
}

// "The degree of row k in i's pivot column, less i's pivot degree", by i's pivot; none where it is negative.
fn excess(r: &[u16], shape: Shape, k: usize, pivot: Pivot) -> Option<usize>
    requires { CoefficientAsked shape.m shape.w k pivot.index.0 pivot.degree.0 r.now }
    ensures { let x = excess_of shape.m shape.w r.now k pivot in SomeIff result (0 < x) (x - 1) }
{
    let start = k * shape.row() + pivot.index.column() * shape.w;
    let places = polynomial::used(&r[start..start + shape.w]);
    pivot.degree.excess(places)
}

// The lowest row before k that has the greatest excess, if any has one. Row and excess are two variables: in the order of Options none is
// least, so that a turn is one test.
fn highest(r: &[u16], shape: Shape, pivots: &[Pivot], k: usize) -> Option<Found>
    requires { HighestAsked shape.m shape.w k r.now pivots.now }
    ensures { IsHighest k (excess_at shape.m shape.w r.now pivots.now k) result }
{
    let mut at = 0;
    let mut most = None;
    for (i, pivot) in pivots[..k].iter().enumerate() {
        let e = excess(r, shape, k, *pivot);
        if most < e {
            at = i;
            most = e;
        }
    }
    most.map(|exponent| Found { at, exponent })
}

// "The multiple c·x^e of the row that has it […] that removes that term". The row that is cleared is l of the step, and the row that has
// the excess is its k.
fn plan(r: &[u16], shape: Shape, step: Step, e: usize, md: Modulus) -> Multiple
    requires { TermAsked md.p shape.m shape.w step.pair.l step.pair.k step.low e r.now }
    ensures { Removes md.p shape.m shape.w step.pair.l step.pair.k step.low e r.now result.exponent result.factor.0 result.negated.0 }
{
    let term = Pivot {
        index: step.low.index,
        degree: step.low.degree.raised(e),
    };
    let a = multiple::coefficient(r, shape, step.pair.l, term);
    let b = multiple::coefficient(r, shape, step.pair.k, step.low);
    multiple::divide(a, b, e, md)
}

// "Subtract the multiple". It is no higher than row l, so that it fits wherever row l does: the cells of row k of U end e places before
// theirs, and those of column l of V end with d less the degree of row l.
fn remove(
    r: &mut [u16],
    u: &mut [u16],
    v: &mut [u16],
    shape: Shape,
    step: Step,
    e: usize,
    md: Modulus,
)
    requires { RemoveAsked md.p shape.n shape.m shape.w step.pair.l step.pair.k step.high step.low e r.old u.old v.old }
    ensures { SecondMove md.p shape.n shape.m shape.w step.pair.l step.pair.k step.low e r.old u.old v.old r.new u.new v.new }
{
    let pair = step.pair;
    let x = plan(r, shape, step, e, md);
    let from = step.low.degree.places();
    let top = Ranges {
        u: shape.n * shape.w - e,
        v: shape.w + 1 - step.high.degree.places(),
    };
    add_row(r, shape, pair.l, pair.k, from, x.negated, x.exponent, md);
    follow(u, v, shape, pair, x, top, md);
}

// "While the greatest of these is not negative, subtract": the number of steps on row k.
fn clear_row(
    r: &mut [u16],
    u: &mut [u16],
    v: &mut [u16],
    shape: Shape,
    pivots: &[Pivot],
    k: usize,
    md: Modulus,
) -> u64
    requires asked { ClearAsked md.p shape.n shape.m shape.w k r.old u.old v.old pivots.now }
    requires pivots_size { length pivots.now ≡ shape.n }
    ensures { Cleared md.p shape.n shape.m shape.w (k + 1) result pivots.now r.old u.old v.old r.new u.new v.new }
{
    let mut count = 0;
    while let Some(x) = highest(r, shape, pivots, k) {
        let step = Step {
            pair: Pair { l: k, k: x.at },
            high: pivots[k],
            low: pivots[x.at],
        };
        remove(r, u, v, shape, step, x.exponent, md);
        count += 1;
    }
    count
}

// The number of all steps. The first row has no earlier row, and the zero rows are last. No step changes a pivot.
pub(crate) fn remove_all(
    r: &mut [u16],
    u: &mut [u16],
    v: &mut [u16],
    shape: Shape,
    pivots: &[Pivot],
    md: Modulus,
) -> u64
    requires asked { RemovingAsked md.p shape.n shape.m shape.w r.old u.old v.old pivots.now }
    requires pivots_size { length pivots.now ≡ shape.n }
    ensures { Cleared md.p shape.n shape.m shape.w shape.n result pivots.now r.old u.old v.old r.new u.new v.new }
{
    let mut count = 0;
    for k in 1..shape.n {
        if pivots[k].index.is_zero_row() {
            return count;
        }
        count += clear_row(r, u, v, shape, pivots, k, md);
    }
    count
}
