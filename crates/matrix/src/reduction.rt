// The whole reduction.
ghost use Rattle.matrix_promises.specs.Reduced.{IsReduction};
ghost use Rattle.matrix.specs.Call.{whole_call};
ghost use Rattle.matrix.specs.Asked.{WorkAsked};
ghost use Rattle.matrix.specs.Reduction.{Answered};

use matrix_buffers::Shape;
use matrix_reduction::{Reached, nonzero_rows};
use matrix_refusals::{Numbers, Refusal, checks};
use matrix_rows::write_identity;
use poly::{Modulus, arithmetic};

// The rank, the count of the steps, and the list of the rows of R that are not zero, in which bit i - 1 stands for row i.
#[derive(Clone, Copy, Debug, PartialEq, Eq)]
pub struct Reduction {
    pub rank: usize,
    pub count: u64,
    pub rows: usize,
}

// "U·A = R, V·R = A": the weak Popov form of the matrix in a, or a refusal that leaves every buffer as it was.
pub fn reduce(
    numbers: Numbers,
    a: &[u16],
    r: &mut [u16],
    u: &mut [u16],
    v: &mut [u16],
) -> Result<Reduction, Refusal>
    ensures { Answered (whole_call numbers a.now r.old u.old v.old) r.new u.new v.new result }
{
    checks::check_reduction(numbers, a, r.len(), u.len(), v.len())?;
    let shape = numbers.shape();
    let reached = work(a, r, u, v, shape, Modulus::of(numbers.p));
    Ok(Reduction {
        rank: reached.rank,
        count: reached.count,
        rows: nonzero_rows::list(r, shape),
    })
}

// The reduction behind the checks: "U, which starts as the identity; V starts as the identity".
// R, U and V go one by one, as in C: matrix_reduction::run says why no struct has them.
pub(crate) fn work(
    a: &[u16],
    r: &mut [u16],
    u: &mut [u16],
    v: &mut [u16],
    shape: Shape,
    md: Modulus,
) -> Reached
    requires { WorkAsked md.p shape.n shape.m shape.w a.now r.old u.old v.old }
    ensures { IsReduction md.p shape.n shape.m shape.w a.now r.new u.new v.new result.rank result.count }
{
    arithmetic::copy(a, r);
    let Shape { n, w, .. } = shape;
    write_identity(u, n, n * w);
    write_identity(v, n, w);
    matrix_reduction::run(r, u, v, shape, md)
}
