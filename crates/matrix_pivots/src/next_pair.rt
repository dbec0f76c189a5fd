// The two rows of a step, by the pivots of all rows. The set of columns says whether there are any; which they are is
// another question, since the lowest row that has a later partner need not be the partner of the first repeated column.
ghost use Rattle.std.specs.Prelude.{◌<◌, length};
ghost use Rattle.matrix_pivots.specs.NextPair.{Partner, NextAsked, IsNext};

use crate::{Pivot, columns};

// The rows of a step: "The one of greater pivot degree is l and the other k".
#[derive(Clone, Copy, PartialEq, Eq)]
pub struct Pair {
    pub l: usize,
    pub k: usize,
}

// The lowest row after a with the pivot index of a.
fn partner(pivots: &[Pivot], a: usize) -> Option<usize>
    requires { a < length pivots.now }
    ensures { Partner pivots.now a result }
{
    let x = pivots[a].index;
    if x.is_zero_row() {
        return None;
    }
    for b in a + 1..pivots.len() {
        if pivots[b].index == x {
            return Some(b);
        }
    }
    None
}

// The lowest row that has a partner, with its partner: the one of greater pivot degree, or else the later one, is l.
fn choose(pivots: &[Pivot]) -> Option<Pair>
    ensures { IsNext pivots.now result }
{
    for a in 0..pivots.len() {
        if let Some(b) = partner(pivots, a) {
            if pivots[b].degree < pivots[a].degree {
                return Some(Pair { l: a, k: b });
            }
            return Some(Pair { l: b, k: a });
        }
    }
    None
}

// The rows of the next step, or none.
pub fn next_rows(pivots: &[Pivot]) -> Option<Pair>
    requires { NextAsked pivots.now }
    ensures { IsNext pivots.now result }
{
    if columns::repeats_column(pivots) {
        return choose(pivots);
    }
    None
}
