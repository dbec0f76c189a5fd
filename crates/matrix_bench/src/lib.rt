// The reduction of R alone, for a C program to compare and to time (bench/matrix.c).
#![tactic(auto)]

ghost use Rattle.std.specs.Prelude.{◌≡◌};
ghost use Rattle.matrix_bench.specs.Alone.{reply_of, AloneReplied};

use matrix_reduction::Reached;
use matrix_refusals::{Numbers, Refusal, checks};
use poly::{Modulus, arithmetic};

// For C: numbers only, 0 where there is nothing to say.
#[repr(C)]
#[derive(Drop)]
pub struct AloneReply {
    pub number: usize,
    pub place: usize,
    pub rank: usize,
    pub count: u64,
}

impl From<Result<Reached, Refusal>> for AloneReply {
    ghost from_gives = { λ x reply. reply ≡ reply_of x };

    fn from(x: Result<Reached, Refusal>) -> AloneReply {
        match x {
            Ok(x) => AloneReply {
                number: 0,
                place: 0,
                rank: x.rank,
                count: x.count,
            },
            Err(x) => AloneReply {
                number: x.number(),
                place: x.place(),
                rank: 0,
                count: 0,
            },
        }
    }
}

// R alone: refused as the single step is, or the weak Popov form of the matrix in a, in r.
// The call is written out: its short name, short_call, is of matrix, on which this crate does not stand.
fn alone(numbers: Numbers, a: &[u16], r: &mut [u16]) -> Result<Reached, Refusal>
    ensures { AloneReplied (record { p = numbers.p; n = numbers.n; m = numbers.m; d = numbers.d; a = a.now; r = r.old }) r.new (reply_of result) }
{
    checks::check_step(numbers, a, r.len())?;
    arithmetic::copy(a, r);
    let shape = numbers.shape();
    Ok(matrix_reduction::run_alone(r, shape, Modulus::of(numbers.p)))
}

// The same for C: the reply has numbers only, and parameters stand one by one.
#[unsafe(no_mangle)]
pub extern "C" fn matrix_bench_alone(
    p: u32,
    n: usize,
    m: usize,
    d: usize,
    a: &[u16],
    r: &mut [u16],
) -> AloneReply
    ensures { AloneReplied (record { p = p; n = n; m = m; d = d; a = a.now; r = r.old }) r.new result }
{
    AloneReply::from(alone(Numbers { p, n, m, d }, a, r))
}
