// The services for programs in C: each forwards to the matrix crate and tells the answer by its numbers.
// Names, parameters and replies are those of moorbesen.h, so they stand one by one, and a refusal is a number here.
#![tactic(auto)]

ghost use Rattle.std.specs.Prelude.{◌≡◌};
ghost use Rattle.moorbesen.specs.Reply.{reply_of, step_reply_of, popov_reply_of, determinant_reply_of, Replied, StepReplied, PopovReplied, DeterminantReplied};

use matrix::popov_form::PopovCounts;
use matrix::reduction::Reduction;
use matrix::{determinant, popov_form, reduction, single_step};
use matrix_refusals::{Numbers, Refusal};

// In `rows`, bit i - 1 stands for row i.
#[repr(C)]
#[derive(Drop)]
pub struct Reply {
    pub number: usize,
    pub place: usize,
    pub rank: usize,
    pub count: u64,
    pub rows: usize,
}

impl From<Result<Reduction, Refusal>> for Reply {
    ghost from_gives = { λ x reply. reply ≡ reply_of x };

    fn from(x: Result<Reduction, Refusal>) -> Reply {
        match x {
            Ok(x) => Reply {
                number: 0,
                place: 0,
                rank: x.rank,
                count: x.count,
                rows: x.rows,
            },
            Err(x) => Reply {
                number: x.number(),
                place: x.place(),
                rank: 0,
                count: 0,
                rows: 0,
            },
        }
    }
}

#[unsafe(no_mangle)]
pub extern "C" fn moorbesen_reduce(
    p: u32,
    n: usize,
    m: usize,
    d: usize,
    a: &[u16],
    r: &mut [u16],
    u: &mut [u16],
    v: &mut [u16],
) -> Reply
    ensures { Replied (record { p = p; n = n; m = m; d = d; a = a.now; r = r.old; u = u.old; v = v.old }) r.new u.new v.new result }
{
    Reply::from(reduction::reduce(Numbers { p, n, m, d }, a, r, u, v))
}

// A single step has no rank and no list of rows: both are 0.
impl From<Result<u64, Refusal>> for Reply {
    ghost from_gives = { λ x reply. reply ≡ step_reply_of x };

    fn from(x: Result<u64, Refusal>) -> Reply {
        Reply::from(x.map(|count| Reduction {
            rank: 0,
            count,
            rows: 0,
        }))
    }
}

#[unsafe(no_mangle)]
pub extern "C" fn moorbesen_step(
    p: u32,
    n: usize,
    m: usize,
    d: usize,
    a: &[u16],
    r: &mut [u16],
) -> Reply
    ensures { StepReplied (record { p = p; n = n; m = m; d = d; a = a.now; r = r.old }) r.new result }
{
    Reply::from(single_step::step(Numbers { p, n, m, d }, a, r))
}

// The two counts are those of the first and of the second kind.
#[repr(C)]
#[derive(Drop)]
pub struct PopovReply {
    pub number: usize,
    pub place: usize,
    pub rank: usize,
    pub first: u64,
    pub second: u64,
}

impl From<Result<PopovCounts, Refusal>> for PopovReply {
    ghost from_gives = { λ x reply. reply ≡ popov_reply_of x };

    fn from(x: Result<PopovCounts, Refusal>) -> PopovReply {
        match x {
            Ok(x) => PopovReply {
                number: 0,
                place: 0,
                rank: x.rank,
                first: x.first,
                second: x.second,
            },
            Err(x) => PopovReply {
                number: x.number(),
                place: x.place(),
                rank: 0,
                first: 0,
                second: 0,
            },
        }
    }
}

#[unsafe(no_mangle)]
pub extern "C" fn moorbesen_popov(
    p: u32,
    n: usize,
    m: usize,
    d: usize,
    a: &[u16],
    r: &mut [u16],
    u: &mut [u16],
    v: &mut [u16],
) -> PopovReply
    ensures { PopovReplied (record { p = p; n = n; m = m; d = d; a = a.now; r = r.old; u = u.old; v = v.old }) r.new u.new v.new result }
{
    PopovReply::from(popov_form::form(Numbers { p, n, m, d }, a, r, u, v))
}

#[repr(C)]
#[derive(Drop)]
pub struct DeterminantReply {
    pub number: usize,
    pub place: usize,
}

impl From<Result<(), Refusal>> for DeterminantReply {
    ghost from_gives = { λ x reply. reply ≡ determinant_reply_of x };

    fn from(x: Result<(), Refusal>) -> DeterminantReply {
        match x {
            Ok(()) => DeterminantReply {
                number: 0,
                place: 0,
            },
            Err(x) => DeterminantReply {
                number: x.number(),
                place: x.place(),
            },
        }
    }
}

#[unsafe(no_mangle)]
pub extern "C" fn moorbesen_determinant(
    p: u32,
    n: usize,
    m: usize,
    d: usize,
    a: &[u16],
    r: &mut [u16],
) -> DeterminantReply
    ensures { DeterminantReplied (record { p = p; n = n; m = m; d = d; a = a.now; r = r.old }) r.new result }
{
    DeterminantReply::from(determinant::determinant(Numbers { p, n, m, d }, a, r))
}
