// The pivot columns in use form a set of at most eight: a mask of eight bits, in one word for speed. A column already in
// the set is what calls for a step.
ghost use Rattle.std.specs.Prelude.{◌≡◌, ◌↔◌, ◌≤◌, IsTrue};
ghost use Rattle.matrix_pivots.specs.Columns.{In, Entered, RepeatsColumn};
ghost use Rattle.matrix_pivots.specs.NextPair.{NextAsked};

use crate::{Pivot, PivotIndex};

// Bit c - 1 stands for column c; a zero row, of index 0, has none.
#[derive(Clone, Copy)]
pub struct Columns(pub u8);

impl Columns {
    pub const NONE: Columns = Columns(0);

    pub fn has(self, x: PivotIndex) -> bool
        requires { x.0 ≤ 8 }
        ensures { IsTrue result ↔ In self.0 x.0 }
    {
        if x.is_zero_row() {
            return false;
        }
        (self.0 >> x.column()) & 1 == 1
    }

    pub fn with(self, x: PivotIndex) -> Columns
        requires { x.0 ≤ 8 }
        ensures { Entered self.0 x.0 result.0 }
    {
        if x.is_zero_row() {
            return self;
        }
        Columns(self.0 | 1 << x.column())
    }
}

// Whether a second row comes upon a column in use: whether a step is called for.
pub fn repeats_column(pivots: &[Pivot]) -> bool
    requires { NextAsked pivots.now }
    ensures { IsTrue result ↔ RepeatsColumn pivots.now }
{
    let mut used = Columns::NONE;
    for pivot in pivots {
        if used.has(pivot.index) {
            return true;
        }
        used = used.with(pivot.index);
    }
    false
}
