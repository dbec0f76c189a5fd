// The cells of a row or of a column: `count` cells of w places each in one buffer, the first at `first`, at distances of `stride`.
ghost use Rattle.std.specs.Prelude.{◌^◌, ◌≡◌, ◌+◌, ◌*◌, ◌<◌};
ghost use Rattle.matrix_rows.specs.Cells.{row, column};

use matrix_buffers::Shape;

#[derive(Clone, Copy)]
pub(crate) struct Cells {
    pub(crate) first: usize,
    pub(crate) stride: usize,
    pub(crate) count: usize,
    pub(crate) w: usize,
}

impl Cells {
    // Those of row i stand one behind the other.
    pub(crate) fn of_row(shape: Shape, i: usize) -> Cells
        requires { i * (shape.m * shape.w) + shape.m * shape.w < 2 ^ 64 }
        ensures { result ≡ row shape.m shape.w i }
    {
        Cells {
            first: i * shape.row(),
            stride: shape.w,
            count: shape.m,
            w: shape.w,
        }
    }

    // Those of column x of V, which is n by n, stand one in each row.
    pub(crate) fn of_column(shape: Shape, x: usize) -> Cells
        requires { (x < shape.n) × (shape.n * shape.w < 2 ^ 64) }
        ensures { result ≡ column shape.n shape.w x }
    {
        Cells {
            first: x * shape.w,
            stride: shape.n * shape.w,
            count: shape.n,
            w: shape.w,
        }
    }

    // Where cell i starts.
    pub(crate) fn start(self, i: usize) -> usize
        requires { self.first + i * self.stride < 2 ^ 64 }
        ensures { result ≡ self.first + i * self.stride }
    {
        self.first + i * self.stride
    }
}
