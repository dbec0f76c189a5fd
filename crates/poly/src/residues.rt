// Residues modulo p. The modulus is a 32-bit number, so that 65,537 can be refused and not cut.
ghost use Rattle.std.specs.Prelude.{◌≡◌, ◌↔◌, ◌+◌, ◌*◌, ◌-◌, ◌%◌, ◌<◌, IsTrue, Some};
ghost use Rattle.std.specs.Fmt.{decimal};
ghost use Rattle.theory_algebra.specs.Prime.{Prime};
ghost use Rattle.poly.specs.residues.Modulus.{Ready, Residues₂, Inverse};
ghost use Rattle.theory_algebra.specs.Modulus.{Accepted, InRange};

use std::fmt;

// A number below the modulus.
#[derive(Clone, Copy, Debug, PartialEq, Eq)]
pub struct Residue(pub(crate) u16);

// A modulus with the reciprocal by which remainders are taken: two products in place of a division. The casts to fewer bits here and below
// are proved to lose nothing: TryFrom would have an error that never comes.
#[derive(Clone, Copy, Debug, PartialEq, Eq)]
pub struct Modulus {
    pub p: u32,
    pub reciprocal: u32,
    pub ghost ready: { Ready p reciprocal },
}

impl Modulus {
    // Whether p is a prime in 2 to 65,521.
    pub fn accepts(p: u32) -> bool
        ensures { IsTrue result ↔ Accepted p }
    {
        if Residue::LARGEST_MODULUS < p {
            return false;
        }
        is_prime(p)
    }

    // The one division that a modulus costs. That the result is ready is in its type.
    pub fn of(p: u32) -> Modulus
        requires { InRange p }
        ensures { result.p ≡ p }
    {
        Modulus {
            p,
            reciprocal: (4294967296 / u64::from(p)) as u32,
        }
    }

    // The remainder of x (Barrett): x * reciprocal / 2^32 is the quotient or one less.
    fn remainder(self, x: u32) -> u16
        ensures { result ≡ x % self.p }
    {
        let q = (u64::from(x) * u64::from(self.reciprocal) / 4294967296) as u32;
        let r = x - q * self.p;
        if r < self.p {
            r as u16
        } else {
            (r - self.p) as u16
        }
    }
}

// The residue of a coefficient that stands in a buffer: "Coefficients are 16-bit numbers below p."
impl From<u16> for Residue {
    ghost from_gives = { λ number residue. residue.0 ≡ number };

    fn from(number: u16) -> Residue {
        Residue(number)
    }
}

// The number by which it is written into a buffer.
impl From<Residue> for u16 {
    ghost from_gives = { λ residue number. number ≡ residue.0 };

    fn from(residue: Residue) -> u16 {
        residue.0
    }
}

// Its number in decimal.
impl fmt::Display for Residue {
    ghost output = { λ residue. Some (decimal residue.0) };

    fn fmt<W: fmt::Write>(&self, f: &mut fmt::Formatter<W>) -> fmt::Result {
        write!(f, "{}", self.0)
    }
}

impl Residue {
    pub const ZERO: Residue = Residue(0);

    pub const ONE: Residue = Residue(1);

    pub const LARGEST_MODULUS: u32 = 65521;

    // The residue of any number.
    pub fn of(x: u32, md: Modulus) -> Residue
        ensures { result.0 ≡ x % md.p }
    {
        Residue(md.remainder(x))
    }

    // The residue of a sum of products that may pass 32 bits, by a division.
    pub(crate) fn of_sum(x: u64, md: Modulus) -> Residue
        ensures { result.0 ≡ x % md.p }
    {
        Residue((x % u64::from(md.p)) as u16)
    }

    pub fn sum(self, b: Residue, md: Modulus) -> Residue
        requires { Residues₂ md.p self.0 b.0 }
        ensures { result.0 ≡ (self.0 + b.0) % md.p }
    {
        let s = u32::from(self.0) + u32::from(b.0);
        if s < md.p {
            Residue(s as u16)
        } else {
            Residue((s - md.p) as u16)
        }
    }

    pub fn difference(self, b: Residue, md: Modulus) -> Residue
        requires { Residues₂ md.p self.0 b.0 }
        ensures { result.0 ≡ (self.0 + (md.p - b.0)) % md.p }
    {
        if b.0 <= self.0 {
            Residue(self.0 - b.0)
        } else {
            Residue((u32::from(self.0) + (md.p - u32::from(b.0))) as u16)
        }
    }

    pub fn product(self, b: Residue, md: Modulus) -> Residue
        ensures { result.0 ≡ self.0 * b.0 % md.p }
    {
        Residue(md.remainder(u32::from(self.0) * u32::from(b.0)))
    }

    // The rule of one place: c times y is added, and the sum fits 32 bits.
    pub(crate) fn plus_product(self, c: Residue, y: Residue, md: Modulus) -> Residue
        requires { Residues₂ md.p c.0 y.0 }
        ensures { result.0 ≡ (self.0 + c.0 * y.0) % md.p }
    {
        Residue(md.remainder(u32::from(self.0) + u32::from(c.0) * u32::from(y.0)))
    }

    // By p = (p / a) * a + p % a: each turn goes from a to p % a by one division, and so on down to 1; no range has these numbers.
    pub fn inverse(self, md: Modulus) -> Residue
        requires prime { Prime md.p }
        requires self_nonzero { (0 < self.0) × (self.0 < md.p) }
        ensures { Inverse md.p self.0 result.0 }
    {
        let p = md.p;
        let mut left = u32::from(self.0);
        let mut found = Residue::ONE;
        while 1 < left {
            let q = p / left;
            found = Residue(md.remainder(u32::from(found.0) * (p - q)));
            left = p - q * left;
        }
        found
    }
}

// Whether p is a prime, by trial division up to its root. Past 2 and 3 only 6k - 1 and 6k + 1 are tried, each by
// one division: the quotient by d also tells when the root is passed.
pub fn is_prime(p: u32) -> bool
    ensures { IsTrue result ↔ Prime p }
{
    if p < 4 {
        return 1 < p;
    }
    if p % 2 == 0 {
        return false;
    }
    if p % 3 == 0 {
        return false;
    }
    // A loop: it ends where the quotient falls below d, which no range says.
    let mut d: u32 = 5;
    loop {
        let q = p / d;
        if q < d {
            return true;
        }
        if q * d == p {
            return false;
        }
        if p % (d + 2) == 0 {
            return false;
        }
        d += 6;
    }
}
