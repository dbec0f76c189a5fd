// The row operation and the product, many rounds of each, for a C program to time (bench/poly.c).
#![tactic(auto)]

ghost use Rattle.std.specs.Prelude.{List, ℕ, ◌≡◌, ◌+◌, ◌<◌, ◌≤◌, length};
ghost use Rattle.theory_lists.specs.Coefficients.{Coefficients};
ghost use Rattle.poly.specs.arithmetic.Operations.{plus_multiple, ProductAsked, product_of};
ghost use Rattle.poly_bench.specs.Rounds.{repeated, TakesRounds, Summed, Added, Multiplied};

use poly::{Modulus, Residue, arithmetic};

// The step on the places of a, in one round after the other.
fn repeat<F: Fn(&mut [u16])>(rounds: u32, a: &mut [u16], step: F)
    ghost change: { List ℕ → List ℕ }
    requires { TakesRounds (F.pre step) (λ p q. F.post step p tt q) rounds change a.old }
    ensures { a.new ≡ repeated rounds change a.old }
{
    for _round in 0..rounds {
        step(a);
    }
}

// Both are reduced modulo p first.
fn add_reduced(a: &mut [u16], b: &mut [u16], c: u32, e: usize, md: Modulus, rounds: u32)
    requires { e + length b.old ≤ length a.old }
    ensures { Summed c e md.p rounds a.old b.old a.new b.new }
{
    let f = Residue::of(c, md);
    arithmetic::scale(a, Residue::ONE, md);
    arithmetic::scale(b, Residue::ONE, md);
    repeat(rounds, a, |x| arithmetic::add_multiple(x, b, f, e, md));
}

// a plus c·x^e times b, over and over. False where p or the lengths are refused.
#[unsafe(no_mangle)]
pub extern "C" fn poly_bench_add(
    a: &mut [u16],
    b: &mut [u16],
    c: u32,
    e: usize,
    p: u32,
    rounds: u32,
) -> bool
    ensures { Added c e p rounds a.old b.old a.new b.new result }
{
    if !Modulus::accepts(p) {
        return false;
    }
    if a.len() < e {
        return false;
    }
    if a.len() - e < b.len() {
        return false;
    }
    add_reduced(a, b, c, e, Modulus::of(p), rounds);
    true
}

// a times b, over and over. False where p or the lengths are refused.
#[unsafe(no_mangle)]
pub extern "C" fn poly_bench_product(
    a: &[u16],
    b: &[u16],
    out: &mut [u16],
    p: u32,
    rounds: u32,
) -> bool
    ensures { Multiplied p rounds a.now b.now out.old out.new result }
{
    if !Modulus::accepts(p) {
        return false;
    }
    if 65536 < a.len() {
        return false;
    }
    if 65536 < b.len() {
        return false;
    }
    if out.len() + 1 < a.len() + b.len() {
        return false;
    }
    let md = Modulus::of(p);
    repeat(rounds, out, |x| arithmetic::product(a, b, x, md));
    true
}
