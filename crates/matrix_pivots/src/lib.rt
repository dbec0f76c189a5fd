// The pivots of the rows of a matrix, and by them the two rows that the next step is made on.
#![tactic(auto)]

mod columns;
mod next_pair;
pub mod pivot;

pub use next_pair::{Pair, next_rows};
pub use pivot::{Pivot, PivotDegree, PivotIndex};
