// Residues modulo p, and polynomials over them in slices that the caller lends.
#![tactic(auto)]

pub mod arithmetic;
pub mod polynomial;
pub mod residues;

pub use polynomial::Degree;
pub use residues::{Modulus, Residue, is_prime};
