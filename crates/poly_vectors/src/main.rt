// Prints what the functions of `poly` answer for small and extreme inputs. The file stdout beside this folder
// has what they should print; expected.py, which shares no code with them, works it out.
#![tactic(auto)]

ghost use Rattle.std.specs.Prelude.{◌<◌, ◌≤◌};
ghost use Rattle.theory_algebra.specs.Prime.{Prime};
ghost use Rattle.theory_algebra.specs.Modulus.{Accepted};
ghost use Rattle.theory_lists.specs.Coefficients.{Coefficients};

use poly::{Degree, Modulus, Residue, arithmetic, polynomial};
use std::io;

fn yes_or_no(flag: bool) -> &'static str {
    if flag { "yes" } else { "no" }
}

// All places, constant term first.
fn say_polynomial(rt: &impl Print, label: &str, a: &[u16]) -> io::Result<()> {
    print!(rt; "{label}")?;
    for x in a {
        print!(rt; " {x}")?;
    }
    println!(rt)
}

fn say_degree(rt: &impl Print, a: &[u16]) -> io::Result<()> {
    println!(rt;
        "degree {} leading {}",
        Degree::of(a),
        polynomial::leading(a)
    )
}

// The four operations on a and b, of which b is not zero.
fn say_residues(rt: &impl Print, a: Residue, b: Residue, md: Modulus) -> io::Result<()>
    requires prime { Prime md.p }
    requires a_lt_p { (a.0 < md.p) × (0 < b.0) × (b.0 < md.p) }
{
    let inverse = b.inverse(md);
    let product = a.product(b, md);
    let difference = a.difference(b, md);
    let sum = a.sum(b, md);
    print!(rt; "residues {a} {b} sum {sum} difference {difference} ")?;
    println!(rt; "product {product} inverse {inverse}")
}

// Numbers that look mixed, from 0 to 65,535.
fn mix(a: &mut [u16], seed: u32)
    requires { seed < 65536 }
{
    let mut x = seed;
    for place in a.iter_mut() {
        *place = x as u16;
        x = (x * 25173 + 13849) % 65536;
    }
}

// The same, modulo p.
fn fill(a: &mut [u16], seed: u32, md: Modulus)
    requires { seed < 65536 }
    ensures { Coefficients md.p a.new }
{
    mix(a, seed);
    arithmetic::scale(a, Residue::ONE, md);
}

// Of the zero polynomial, a constant and x^63, whose low zeros count.
fn say_edges(rt: &impl Print) -> io::Result<()> {
    let mut a = [0u16; 64];
    say_degree(rt, &a)?;
    a[0] = 1;
    say_degree(rt, &a)?;
    a[0] = 0;
    a[63] = 1;
    say_degree(rt, &a)?;
    say_polynomial(rt, "x^63:", &a)
}

// c·x^e times a polynomial of degree up to 63, added to one of degree up to 127.
fn say_multiple(rt: &impl Print, c: u32, e: usize, seed: u32, md: Modulus) -> io::Result<()>
    requires { (e ≤ 64) × (seed < 60000) }
{
    let mut a = [0u16; 128];
    let mut b = [0u16; 64];
    fill(&mut a, seed, md);
    fill(&mut b, seed + 1, md);
    let c = Residue::of(c, md);
    arithmetic::add_multiple(&mut a, &b, c, e, md);
    println!(rt; "factor {c} exponent {e}")?;
    say_polynomial(rt, "sum:", &a)?;
    say_degree(rt, &a)
}

fn say_product(rt: &impl Print, seed: u32, md: Modulus) -> io::Result<()>
    requires { seed < 60000 }
{
    let mut a = [0u16; 64];
    let mut b = [0u16; 64];
    let mut out = [0u16; 127];
    fill(&mut a, seed, md);
    fill(&mut b, seed + 1, md);
    arithmetic::product(&a, &b, &mut out, md);
    say_polynomial(rt, "product:", &out)?;
    say_degree(rt, &out)
}

fn say_scaled(rt: &impl Print, c: u32, seed: u32, md: Modulus) -> io::Result<()>
    requires { seed < 60000 }
{
    let mut a = [0u16; 64];
    let mut b = [0u16; 64];
    fill(&mut a, seed, md);
    arithmetic::copy(&a, &mut b);
    arithmetic::scale(&mut a, Residue::of(c, md), md);
    say_polynomial(rt, "scaled:", &a)?;
    let same = yes_or_no(polynomial::equal(&a, &b));
    arithmetic::clear(&mut b);
    let zero = yes_or_no(polynomial::equal(&b, &[]));
    println!(rt; "same as before: {same}, cleared is zero: {zero}")
}

// Whether p is taken, and if so what is worked out by it.
fn say_modulus(rt: &impl Print, p: u32) -> io::Result<()> {
    let prime = yes_or_no(poly::is_prime(p));
    let accepted = Modulus::accepts(p);
    println!(rt;
        "modulus {p} prime {prime} accepted {}",
        yes_or_no(accepted)
    )?;
    if accepted {
        say_all(rt, p)?;
    }
    Ok(())
}

fn say_all(rt: &impl Print, p: u32) -> io::Result<()>
    requires { Accepted p }
{
    let md = Modulus::of(p);
    let top = Residue::of(p - 1, md);
    say_residues(rt, Residue::ZERO, top, md)?;
    say_residues(rt, top, Residue::ONE, md)?;
    say_residues(rt, top, top, md)?;
    say_multiple(rt, 1, 0, 5, md)?;
    say_multiple(rt, 65535, 64, 77, md)?;
    say_product(rt, 40000, md)?;
    say_scaled(rt, 12345, 1, md)
}

fn main(rt: HostRuntime) -> io::Result<()> {
    say_edges(&rt)?;
    for p in [0, 1, 2, 3, 9, 929, 65521, 65537, 4294967291, 4294967295] {
        say_modulus(&rt, p)?;
    }
    Ok(())
}
