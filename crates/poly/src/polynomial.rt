// Polynomials in slices, constant term first, all places present: what is read off them.
ghost use Rattle.std.specs.Prelude.{◌≡◌, ◌↔◌, ℕ, ◌<◌, ◌≤◌, length, get_or, IsTrue, Some};
ghost use Rattle.std.specs.Fmt.{signed_decimal};
ghost use Rattle.poly.specs.Polynomial.{degree_of, used_places, leading_of, SamePolynomial};

use crate::residues::Residue;
use std::fmt;

// The degree of a polynomial, -1 for zero and no Option: `Degree::of` promises that number (`degree_of`).
#[derive(Clone, Copy, Debug, PartialEq, Eq)]
pub struct Degree(pub i64);

// Whether all places are zero. A fold, which has no early exit as `all` has, so that eight places become one comparison of vectors.
fn all_zero(a: &[u16]) -> bool
    ensures { IsTrue result ↔ ((i : ℕ) → i < length a.now → get_or a.now i 0 ≡ 0) }
{
    a.iter().fold(0, |bits, x| bits | *x) == 0
}

// The places that are left when zeros at the end are dropped in eights.
fn skip(a: &[u16]) -> usize
    ensures { (result ≤ length a.now) × ((i : ℕ) → result ≤ i → get_or a.now i 0 ≡ 0) }
{
    let mut n = a.len();
    // A while, since n, which falls by eights, is the answer.
    while 8 <= n && all_zero(&a[n - 8..n]) {
        n -= 8;
    }
    n
}

// The places up to the last coefficient that is not zero.
pub fn used(a: &[u16]) -> usize
    ensures { (result ≡ used_places a.now) × (result ≤ length a.now) }
{
    match a[..skip(a)]
        .iter()
        .rposition(|x| Residue::from(*x) != Residue::ZERO)
    {
        Some(last) => last + 1,
        None => 0,
    }
}

// Its number in decimal, -1 for zero.
impl fmt::Display for Degree {
    ghost output = { λ degree. Some (signed_decimal degree.0) };

    fn fmt<W: fmt::Write>(&self, f: &mut fmt::Formatter<W>) -> fmt::Result {
        write!(f, "{}", self.0)
    }
}

impl Degree {
    pub fn of(a: &[u16]) -> Degree
        ensures { result.0 ≡ degree_of a.now }
    {
        let n = used(a);
        if n == 0 {
            return Degree(-1);
        }
        Degree((n - 1) as i64)
    }
}

// The coefficient at the degree, 0 for the zero polynomial.
pub fn leading(a: &[u16]) -> Residue
    ensures { result.0 ≡ leading_of a.now }
{
    a[..used(a)]
        .last()
        .map_or(Residue::ZERO, |x| Residue::from(*x))
}

// Whether the two are the same polynomial, whatever zeros stand behind.
pub fn equal(a: &[u16], b: &[u16]) -> bool
    ensures { IsTrue result ↔ SamePolynomial a.now b.now }
{
    a[..used(a)] == b[..used(b)]
}
