// The product of the entries that are factors of the determinant.
ghost use Rattle.std.specs.Prelude.{◌≡◌};
ghost use Rattle.matrix_determinant.specs.SignedProduct.{sign_of, unit_of, signed_product, MultiplyAsked};

use crate::scratch::{CELL, zeros};
use poly::{Modulus, Residue, arithmetic, polynomial};

#[derive(Clone, Copy)]
pub(crate) enum Sign {
    Plus,
    Minus,
}

impl Sign {
    // The sign of (-1)^e.
    pub(crate) fn of(e: usize) -> Sign
        ensures { result ≡ sign_of e }
    {
        if e % 2 == 1 { Sign::Minus } else { Sign::Plus }
    }

    // 1, or -1.
    fn unit(self, md: Modulus) -> Residue
        ensures { result.0 ≡ unit_of md.p self }
    {
        match self {
            Sign::Plus => Residue::ONE,
            Sign::Minus => Residue::ZERO.difference(Residue::ONE, md),
        }
    }
}

// The product becomes itself times the factor, with a sign. Time goes with the places of both that are in use.
pub(crate) fn multiply(product: &mut [u16], factor: &[u16], sign: Sign, md: Modulus)
    requires { MultiplyAsked md.p product.old factor.now }
    ensures { product.new ≡ signed_product md.p sign product.old factor.now }
{
    let mut room: [u16; CELL] = zeros();
    let places = product.len();
    let a = polynomial::used(product);
    let b = polynomial::used(factor);
    arithmetic::product(&product[..a], &factor[..b], &mut room[..places], md);
    product.copy_from_slice(&room[..places]);
    arithmetic::scale(product, sign.unit(md), md);
}
