// What a buffer holds that a caller lends for a matrix: its shape, and in specs/ what is said of its places.
#![tactic(auto)]

ghost use Rattle.std.specs.Prelude.{◌^◌, ◌≡◌, ◌*◌, ◌<◌};

// A matrix of n rows and m columns, cell behind cell and row by row, each cell of w places.
#[derive(Clone, Copy)]
pub struct Shape {
    pub n: usize,
    pub m: usize,
    pub w: usize,
}

impl Shape {
    // The places of a row.
    pub fn row(self) -> usize
        requires { self.m * self.w < 2 ^ 64 }
        ensures { result ≡ self.m * self.w }
    {
        self.m * self.w
    }

    // That of U beside a matrix of this shape: n by n, and each cell has n·w places.
    pub fn of_u(self) -> Shape
        requires { self.n * self.w < 2 ^ 64 }
        ensures { result ≡ record { n = self.n; m = self.n; w = self.n * self.w } }
    {
        Shape {
            n: self.n,
            m: self.n,
            w: self.n * self.w,
        }
    }
}
