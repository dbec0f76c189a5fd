// Row and column operations on matrices of polynomials that stand in buffers, straight in the buffer: no room is lent, and none made.
// Rows and columns have a function each, for each has its own promise (`RowAdded`, `ColumnAdded`); what they do is one loop over `Cells`.
#![tactic(auto)]

ghost use Rattle.matrix_buffers.specs.Added.{CellsAdded, CellAdded, RowAdded, ColumnAdded};
ghost use Rattle.matrix_buffers.specs.Diagonal.{Diagonal};
ghost use Rattle.matrix_rows.specs.Cells.{place};
ghost use Rattle.matrix_rows.specs.Asked.{CellPair, CellPairs, RowsInBuffer, ColumnsInBuffer, Square};

use crate::cells::Cells;
use matrix_buffers::Shape;
use poly::{Modulus, Residue, arithmetic, polynomial};

mod cells;
mod exchange;
mod scale;

pub use exchange::{exchange_columns, exchange_rows};
pub use scale::{scale_column, scale_row};

// The cell at `to` takes c·x^e times the cell at `from`, straight in the buffer. Two parts of one buffer cannot be lent at once: a
// number of the one goes by value, and the other's part is lent on for each term. Only the lowest `top` places are read: the caller
// knows that the others are zero, and time goes with the places that are in use.
fn add_cell(
    buf: &mut [u16],
    to: usize,
    from: usize,
    w: usize,
    top: usize,
    c: Residue,
    e: usize,
    md: Modulus,
)
    requires { CellPair md.p c.0 e w top to from buf.old }
    ensures { CellAdded md.p c.0 e w to from buf.old buf.old buf.new }
{
    let last = from + top;
    let n = polynomial::used(&buf[from..last]);
    let end = to + w;
    for i in 0..n {
        let y = Residue::from(buf[from + i]);
        arithmetic::add_at(&mut buf[to..end], e + i, y, c, md);
    }
}

// The same for the cells of two rows or of two columns.
fn add_cells(buf: &mut [u16], to: Cells, from: Cells, top: usize, c: Residue, e: usize, md: Modulus)
    requires { CellPairs md.p c.0 e top to from buf.old }
    ensures { CellsAdded md.p c.0 e to.w to.count (place to) (place from) buf.old buf.old buf.new }
{
    for i in 0..to.count {
        add_cell(buf, to.start(i), from.start(i), to.w, top, c, e, md);
    }
}

// Row l takes c·x^e times row k. c and e go one by one: R and U take -c and V takes c, so that no one value of the callers is both.
pub fn add_row(
    buf: &mut [u16],
    shape: Shape,
    l: usize,
    k: usize,
    top: usize,
    c: Residue,
    e: usize,
    md: Modulus,
)
    requires { RowsInBuffer md.p c.0 e shape.m shape.w top l k buf.old }
    ensures { RowAdded md.p shape.m shape.w c.0 e l k buf.old buf.new }
{
    let to = Cells::of_row(shape, l);
    let from = Cells::of_row(shape, k);
    add_cells(buf, to, from, top, c, e, md);
}

// Column x takes c·x^e times column y, of V beside a matrix of this shape.
pub fn add_column(
    v: &mut [u16],
    shape: Shape,
    x: usize,
    y: usize,
    top: usize,
    c: Residue,
    e: usize,
    md: Modulus,
)
    requires { ColumnsInBuffer md.p c.0 e shape.n shape.w top x y v.old }
    ensures { ColumnAdded md.p shape.n shape.w c.0 e x y v.old v.new }
{
    let to = Cells::of_column(shape, x);
    let from = Cells::of_column(shape, y);
    add_cells(v, to, from, top, c, e, md);
}

// The identity, which is square, so that n and w alone tell its shape: zeros, and then a one in each row.
pub fn write_identity(u: &mut [u16], n: usize, w: usize)
    requires { Square n w u.old }
    ensures { Diagonal n w u.new }
{
    arithmetic::clear(u);
    let one = u16::from(Residue::ONE);
    for i in 0..n {
        u[i * (n * w) + i * w] = one;
    }
}
