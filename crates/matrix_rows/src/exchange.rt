// Two rows or two columns change places, in place: no room is lent, for a number at a time is enough.
ghost use Rattle.matrix_buffers.specs.Exchanged.{CellsExchanged, CellExchanged, RowsExchanged, ColumnsExchanged};
ghost use Rattle.matrix_rows.specs.Cells.{place};
ghost use Rattle.matrix_rows.specs.Asked.{Pairs, TwoParts, TwoRows, TwoColumns};

use crate::cells::Cells;
use matrix_buffers::Shape;

// Two cells of one buffer, place by place: they cannot both be lent at once. By hand, since `swap` asks at each place which index is the
// greater one.
fn exchange_cell(buf: &mut [u16], one: usize, other: usize, w: usize)
    requires { TwoParts w one other buf.old }
    ensures { CellExchanged w one other buf.old buf.new }
{
    for t in 0..w {
        let x = one + t;
        let y = other + t;
        let kept = buf[x];
        buf[x] = buf[y];
        buf[y] = kept;
    }
}

fn exchange_cells(buf: &mut [u16], one: Cells, other: Cells)
    requires { Pairs one other buf.old }
    ensures { CellsExchanged one.w one.count (place one) (place other) buf.old buf.new }
{
    for i in 0..one.count {
        exchange_cell(buf, one.start(i), other.start(i), one.w);
    }
}

pub fn exchange_rows(buf: &mut [u16], shape: Shape, i: usize, j: usize)
    requires { TwoRows shape.m shape.w i j buf.old }
    ensures { RowsExchanged shape.m shape.w i j buf.old buf.new }
{
    exchange_cells(buf, Cells::of_row(shape, i), Cells::of_row(shape, j));
}

// Of V beside a matrix of this shape.
pub fn exchange_columns(v: &mut [u16], shape: Shape, x: usize, y: usize)
    requires { TwoColumns shape.n shape.w x y v.old }
    ensures { ColumnsExchanged shape.n shape.w x y v.old v.new }
{
    exchange_cells(v, Cells::of_column(shape, x), Cells::of_column(shape, y));
}
