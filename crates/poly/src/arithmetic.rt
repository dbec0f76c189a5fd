// Arithmetic of polynomials in slices: what changes places or fills them. All places stay, zeros at either end too.
ghost use Rattle.std.specs.Prelude.{◌≡◌, ◌*◌, ◌-◌, ◌<◌, ◌≤◌, length};
ghost use Rattle.theory_lists.specs.Change.{imap};
ghost use Rattle.poly.specs.arithmetic.Operations.{plus_times, AddAsked, plus_term, TermAsked, plus_multiple, MultipleAsked, product_at, product_of, ProductAsked, scaled_by, zeros};

use crate::polynomial;
use crate::residues::{Modulus, Residue};

// a plus c times b, place by place.
fn add_scaled(a: &mut [u16], b: &[u16], c: Residue, md: Modulus)
    requires { AddAsked md.p c.0 a.old b.now }
    ensures { a.new ≡ imap (plus_times md.p c.0 b.now) a.old }
{
    // No zip: of an iter_mut under another iterator a proof knows no element.
    for (i, x) in a.iter_mut().enumerate() {
        *x = u16::from(Residue::from(*x).plus_product(c, Residue::from(b[i]), md));
    }
}

// a with c times y added at place i: one term of a multiple, where what is added stands in the same buffer and goes by value.
pub fn add_at(a: &mut [u16], i: usize, y: Residue, c: Residue, md: Modulus)
    requires { TermAsked md.p c.0 y.0 i a.old }
    ensures { a.new ≡ plus_term md.p c.0 y.0 i a.old }
{
    a[i] = u16::from(Residue::from(a[i]).plus_product(c, y, md));
}

// a plus c·x^e times b, in a's places. The terms of b up to the last that is not zero all fit, by the contract.
pub fn add_multiple(a: &mut [u16], b: &[u16], c: Residue, e: usize, md: Modulus)
    requires { MultipleAsked md.p c.0 e a.old b.now }
    ensures { a.new ≡ plus_multiple md.p c.0 e b.now a.old }
{
    let n = polynomial::used(b);
    if n == 0 {
        return;
    }
    add_scaled(&mut a[e..e + n], &b[..n], c, md);
}

// The sum of a_i·b_(k-i), over the places that both have.
fn sum_at(a: &[u16], b: &[u16], k: usize) -> u64
    requires { (length a.now ≤ 4294967296) × (k < 9223372036854775808) }
    ensures { result ≡ product_at a.now b.now k }
{
    let n = k + 1;
    let start = n.saturating_sub(b.len());
    let end = n - n.saturating_sub(a.len());
    let mut sum: u64 = 0;
    // By the index, which both share: over a zip with b reversed, `sum` asks for a bound of the sum after every term.
    for i in start..end {
        sum += whole_product(a[i], b[k - i]);
    }
    sum
}

fn whole_product(x: u16, y: u16) -> u64
    ensures { (result ≡ x * y) × (result ≤ 4294836225) }
{
    u64::from(x) * u64::from(y)
}

// a times b, reduced once for each place of out.
pub fn product(a: &[u16], b: &[u16], out: &mut [u16], md: Modulus)
    requires { ProductAsked md.p a.now b.now out.old }
    ensures { out.new ≡ product_of md.p a.now b.now out.old }
{
    for (k, x) in out.iter_mut().enumerate() {
        *x = u16::from(Residue::of_sum(sum_at(a, b, k), md));
    }
}

// c times a, in place.
pub fn scale(a: &mut [u16], c: Residue, md: Modulus)
    ensures { a.new ≡ scaled_by md.p c.0 a.old }
{
    for i in 0..a.len() {
        a[i] = u16::from(c.product(Residue::from(a[i]), md));
    }
}

// By a loop: copy_from_slice asks for `memmove`, which a program in C would have to bring for the libraries made of this.
pub fn copy(from: &[u16], to: &mut [u16])
    requires { length from.now ≡ length to.old }
    ensures { to.new ≡ from.now }
{
    for i in 0..to.len() {
        to[i] = from[i];
    }
}

pub fn clear(a: &mut [u16])
    ensures { a.new ≡ zeros a.old }
{
    a.fill(u16::from(Residue::ZERO));
}
