// The numbers of a call, the refusals with their numbers and places, and the checks that lead to them.
#![tactic(auto)]

ghost use Rattle.std.specs.Prelude.{◌≡◌, ◌+◌, ◌^◌, ◌<◌};
ghost use Rattle.matrix_refusals.specs.Number.{number_of, place_of};

pub mod checks;

use matrix_buffers::Shape;

// The numbers of a call: the modulus p, "rows n, columns m: 1 to 8 each", and the degree limit d.
#[derive(Clone, Copy, Debug, PartialEq, Eq)]
pub struct Numbers {
    pub p: u32,
    pub n: usize,
    pub m: usize,
    pub d: usize,
}

impl Numbers {
    // The shape of the input: a cell has a place for each degree up to d.
    pub fn shape(self) -> Shape
        requires { self.d + 1 < 2 ^ 64 }
        ensures { result ≡ record { n = self.n; m = self.m; w = self.d + 1 } }
    {
        Shape {
            n: self.n,
            m: self.m,
            w: self.d + 1,
        }
    }
}

// Why a call is refused. Only programs in C and the printed text see the number and the place that the table gives each.
#[derive(Clone, Copy, Debug, PartialEq, Eq)]
pub enum Refusal {
    Modulus,
    Shape,
    Degree,
    // Determinant wanted, n and m differ.
    Square,
    // The buffer, counted from 1.
    Length(usize),
    // The index of the coefficient.
    Coefficient(usize),
}

impl Refusal {
    // The number of a refusal, by the refusal table.
    pub fn number(self) -> usize
        ensures { result ≡ number_of self }
    {
        match self {
            Refusal::Modulus => 1,
            Refusal::Shape => 2,
            Refusal::Degree => 3,
            Refusal::Square => 4,
            Refusal::Length(_) => 5,
            Refusal::Coefficient(_) => 6,
        }
    }

    // The place that is returned with it, 0 where there is none.
    pub fn place(self) -> usize
        ensures { result ≡ place_of self }
    {
        match self {
            Refusal::Modulus | Refusal::Shape | Refusal::Degree | Refusal::Square => 0,
            Refusal::Length(k) => k,
            Refusal::Coefficient(i) => i,
        }
    }
}
