// A row or a column is multiplied by a residue, in place.
ghost use Rattle.std.specs.Prelude.{◌+◌, ◌≤◌, length};
ghost use Rattle.matrix_buffers.specs.Scaled.{CellsScaled, CellScaled, RowScaled, ColumnScaled};
ghost use Rattle.matrix_rows.specs.Cells.{place};
ghost use Rattle.matrix_rows.specs.Asked.{InBuffer, OneRow, OneColumn};

use crate::cells::Cells;
use matrix_buffers::Shape;
use poly::{Modulus, Residue, arithmetic, polynomial};

// The zeros at the end of a cell are left: their multiples are zero, and most places of U are such zeros.
fn scale_cell(buf: &mut [u16], start: usize, w: usize, c: Residue, md: Modulus)
    requires { start + w ≤ length buf.old }
    ensures { CellScaled md.p c.0 w start buf.old buf.new }
{
    let end = start + w;
    let used = start + polynomial::used(&buf[start..end]);
    arithmetic::scale(&mut buf[start..used], c, md);
}

fn scale_cells(buf: &mut [u16], cells: Cells, c: Residue, md: Modulus)
    requires { InBuffer cells.w cells.count cells buf.old }
    ensures { CellsScaled md.p c.0 cells.w cells.count (place cells) buf.old buf.new }
{
    for i in 0..cells.count {
        scale_cell(buf, cells.start(i), cells.w, c, md);
    }
}

pub fn scale_row(buf: &mut [u16], shape: Shape, i: usize, c: Residue, md: Modulus)
    requires { OneRow shape.m shape.w i buf.old }
    ensures { RowScaled md.p shape.m shape.w c.0 i buf.old buf.new }
{
    scale_cells(buf, Cells::of_row(shape, i), c, md);
}

// Of V beside a matrix of this shape.
pub fn scale_column(v: &mut [u16], shape: Shape, x: usize, c: Residue, md: Modulus)
    requires { OneColumn shape.n shape.w x v.old }
    ensures { ColumnScaled md.p shape.n shape.w c.0 x v.old v.new }
{
    scale_cells(v, Cells::of_column(shape, x), c, md);
}
