// Room of a call's own.
ghost use Rattle.matrix_determinant.specs.scratch.Zeros.{Zeros};

// The places of a cell that takes a determinant, 505 at most.
pub(crate) const CELL: usize = 512;

// Eight rows of seven cells of 64 places: a matrix without its last column.
pub(crate) const COLUMNS: usize = 3584;

// Eight cells of as many places as a determinant has, 505: its last column, parted from the others.
pub(crate) const CELLS: usize = 4040;

// A function, since its promise speaks of each place.
pub(crate) fn zeros<const N: usize>() -> [u16; N]
    ensures { Zeros N result }
{
    [0; N]
}
